//! Nodes of statements.

ghost use Rattle.std.specs.Prelude.{◌≡◌};
ghost use Rattle.cc_grammar.specs.Nodes as nodes;

use cc_tree::{AssignOp, Expr, ExprKind, Stmt, StmtKind};

/// The literal 1.
pub fn one(line: u32) -> Expr
    ensures { result ≡ nodes.one line }
{
    Expr {
        kind: ExprKind::Int(1),
        line,
    }
}

/// An assignment, whose line is that of its place.
pub fn assigned(place: Expr, op: AssignOp, value: Expr) -> Stmt
    ensures { result ≡ nodes.assigned place op value }
{
    let line = place.line;
    Stmt {
        kind: StmtKind::Assign { place, op, value },
        line,
    }
}

/// A call for its effect.
pub fn called(call: Expr) -> Stmt
    ensures { result ≡ nodes.called call }
{
    let line = call.line;
    Stmt {
        kind: StmtKind::Call(call),
        line,
    }
}
