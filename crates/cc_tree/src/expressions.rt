//! Expressions.

use ccpp_edge::{Boxed, List, Text};

/// An operator before its operand.
#[derive(Clone, Copy, Debug, PartialEq, Eq)]
pub enum UnaryOp {
    /// `-`
    Neg,
    /// `!`
    Not,
    /// `*`
    Deref,
    /// `&`
    Address,
}

/// An operator between two operands, from the loosest level to the tightest.
#[derive(Clone, Copy, Debug, PartialEq, Eq)]
pub enum BinaryOp {
    /// `||`
    Or,
    /// `&&`
    And,
    /// `==`
    Eq,
    /// `!=`
    Ne,
    /// `<`
    Lt,
    /// `<=`
    Le,
    /// `>`
    Gt,
    /// `>=`
    Ge,
    /// `+`
    Add,
    /// `-`
    Sub,
    /// `*`
    Mul,
    /// `/`
    Div,
    /// `%`
    Rem,
}

/// An expression and the line of its first token.
#[cycle(expr)]
#[derive(Drop)]
pub struct Expr {
    /// What it is.
    pub kind: ExprKind,
    /// The line of its first token, from 1.
    pub line: u32,
}

/// What an expression is.
#[cycle(expr)]
#[derive(Drop)]
pub enum ExprKind {
    /// A decimal literal.
    Int(i64),
    /// `NULL`
    Null,
    /// `this`
    This,
    /// A name alone.
    Name(Text),
    /// `name(args)`
    Call {
        /// The function's name.
        name: Text,
        /// The arguments, in order.
        args: List<Expr>,
    },
    /// `(expr)`
    Paren(Boxed<Expr>),
    /// A base and at least one tail, applied from the left.
    Post {
        /// What the first tail is applied to.
        base: Boxed<Expr>,
        /// The tails, in order.
        tail: List<Suffix>,
    },
    /// An operator before its operand.
    Unary {
        /// The operator.
        op: UnaryOp,
        /// Its operand.
        part: Boxed<Expr>,
    },
    /// Operators of one level in a row, whose meaning is the fold from the left.
    Chain {
        /// The first operand.
        first: Boxed<Expr>,
        /// The operators, each with the operand after it, at least one.
        rest: List<Link>,
    },
    /// `new int`, `new sync int`, and arrays of these.
    NewInt {
        /// Whether the cells are sync variables.
        sync: bool,
        /// The length of an array.
        length: Option<Boxed<Expr>>,
    },
    /// `new name(args)`; no parentheses are no arguments.
    NewClass {
        /// The class's name.
        name: Text,
        /// The arguments, in order.
        args: List<Expr>,
    },
}

/// A tail of a postfix expression.
#[cycle(expr)]
#[derive(Drop)]
pub enum Suffix {
    /// `[index]`
    Index(Expr),
    /// `.name` or `->name`
    Field {
        /// Whether it is written `->`.
        arrow: bool,
        /// The member's name.
        name: Text,
    },
    /// `.name(args)` or `->name(args)`
    CallOn {
        /// Whether it is written `->`.
        arrow: bool,
        /// The member's name.
        name: Text,
        /// The arguments, in order.
        args: List<Expr>,
    },
}

/// An operator of a chain with the operand after it.
#[cycle(expr)]
#[derive(Drop)]
pub struct Link {
    /// The operator.
    pub op: BinaryOp,
    /// The operand after it.
    pub part: Expr,
}
