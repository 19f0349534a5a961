use cc_ops::{Kind, Op};
use ccpp_edge::{Boxed, Bytes, List};

/// A value that stands in the text of a program. It holds no pointer.
#[derive(Clone, Copy, Debug, PartialEq, Eq)]
pub enum Constant {
    Void,
    Int(i64),
    Null,
}

/// How a function is called: without an object, on an object, or through a global pointer.
#[derive(Clone, Copy, Debug, PartialEq, Eq)]
pub enum How {
    Alone,
    On,
    Remote,
}

/// What `cout` writes: an int, a text, or the end of a line.
#[derive(Drop)]
pub enum PrintPart {
    Number,
    Text(Bytes),
    Endl,
}

/// An expression with each name resolved. An address is a value.
#[cycle(expression)]
#[derive(Drop)]
pub enum Expression {
    Push(Constant),
    This,
    /// The address of a variable, by its number.
    Variable(u32),
    /// The address of a member's first cell, so many cells behind the object's.
    Member(Boxed<Expression>, u32),
    /// The address of an element of an array that is given by its name, of so many cells.
    Index(Boxed<Expression>, u32, Boxed<Expression>),
    /// The address of an element of what a pointer leads to.
    At(Boxed<Expression>, Boxed<Expression>),
    /// The value at an address, through a global pointer or not.
    Load(bool, Boxed<Expression>),
    Unary(Op, Boxed<Expression>),
    Binary(Op, Boxed<Expression>, Boxed<Expression>),
    And(Boxed<Expression>, Boxed<Expression>),
    Or(Boxed<Expression>, Boxed<Expression>),
    /// A new object of so many cells of a kind.
    New(Kind, u32),
    /// A new object of a class, by its number: of a global class or not.
    NewObject(bool, u32, List<Expression>),
    /// A call of a function, by its number. The object, if any, is the first argument.
    Call(How, u32, List<Expression>),
}
