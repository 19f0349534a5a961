ghost use Rattle.std.specs.Prelude.{◌≡◌};
ghost use Rattle.cc_operators.specs.Operators as spec;

use cc_ops::Op;
use cc_tree::BinaryOp;

/// What an operator between two operands is in the core.
#[derive(Clone, Copy)]
pub(crate) enum Joint {
    /// `||`, which may leave its second operand alone.
    Or,
    /// `&&`, likewise.
    And,
    /// One that compares, of the machine.
    Compares(Op),
    /// One that constant expressions are made of too, of the machine.
    Computes(Op),
}

impl Joint {
    /// What an operator of the tree is in the core.
    pub(crate) fn of(op: BinaryOp) -> Joint
        ensures { result ≡ spec.joint op }
    {
        match op {
            BinaryOp::Or => Joint::Or,
            BinaryOp::And => Joint::And,
            BinaryOp::Eq => Joint::Compares(Op::Eq),
            BinaryOp::Ne => Joint::Compares(Op::Ne),
            BinaryOp::Lt => Joint::Compares(Op::Lt),
            BinaryOp::Le => Joint::Compares(Op::Le),
            BinaryOp::Gt => Joint::Compares(Op::Gt),
            BinaryOp::Ge => Joint::Compares(Op::Ge),
            BinaryOp::Add => Joint::Computes(Op::Add),
            BinaryOp::Sub => Joint::Computes(Op::Sub),
            BinaryOp::Mul => Joint::Computes(Op::Mul),
            BinaryOp::Div => Joint::Computes(Op::Div),
            BinaryOp::Rem => Joint::Computes(Op::Rem),
        }
    }
}
