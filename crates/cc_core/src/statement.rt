use crate::expression::{Expression, How, PrintPart};
use cc_ops::Kind;
use ccpp_edge::{Boxed, List};

/// A statement with each name resolved. A variable is its number in its function: parameters, then declarations in the order of
/// the text.
#[cycle(statement)]
#[derive(Drop)]
pub enum Statement {
    Empty,
    /// A statement of the text, with the line of its first token.
    AtLine(u32, Boxed<Statement>),
    /// The declaration of a variable of so many cells of a kind.
    Make(u32, Kind, u32),
    /// The declaration of a variable of one cell with a start value.
    Set(u32, Kind, Expression),
    /// The declaration of a variable of a class, by its number, with arguments.
    Build(u32, u32, List<Expression>),
    /// A value put at a place, through a global pointer or not.
    Assign(bool, Expression, Expression),
    /// A call whose value is dropped.
    Drop(Expression),
    Print(List<PrintPart>, List<Expression>),
    If(Expression, Boxed<Statement>),
    IfElse(Expression, Boxed<Statement>, Boxed<Statement>),
    While(Expression, Boxed<Statement>),
    /// A test, a step and a body. What comes before the first test is a statement of its own.
    For(Expression, Boxed<Statement>, Boxed<Statement>),
    /// Leaves the innermost loop; ends its turn.
    Break,
    Continue,
    Par(List<Statement>),
    /// Over a variable: its start value, the test, and the line and the value of the assignment to it in the header's last
    /// part.
    ParFor(u32, Expression, Expression, u32, Expression, Boxed<Statement>),
    Spawn(How, u32, List<Expression>),
    Return(Expression),
    Block(List<Statement>),
}
