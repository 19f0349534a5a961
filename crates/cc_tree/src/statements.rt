//! Types, declarations of variables, and statements.

use crate::expressions::Expr;
use ccpp_edge::{Boxed, Bytes, List, Text};

/// The name that a type begins with.
#[derive(Drop)]
pub enum Base {
    /// `void`
    Void,
    /// `int`
    Int,
    /// `sync int`
    SyncInt,
    /// A class's name.
    Named(Text),
}

/// A type as it is written.
#[derive(Drop)]
pub struct TypeName {
    /// What it begins with.
    pub base: Base,
    /// Whether a `*` follows.
    pub star: bool,
    /// Whether `global` follows the `*`.
    pub remote: bool,
    /// Whether `sync` follows the `*`.
    pub once: bool,
}

/// How a declared variable starts.
#[derive(Drop)]
pub enum Start {
    /// With nothing.
    Nothing,
    /// `= value`
    Value(Expr),
    /// `(args)`
    Args(List<Expr>),
}

/// The declaration of one variable or field.
#[derive(Drop)]
pub struct Decl {
    /// Its type, without a length.
    pub ty: TypeName,
    /// Its name.
    pub name: Text,
    /// The length of an array.
    pub length: Option<Expr>,
    /// How it starts.
    pub start: Start,
    /// The line of the type's first token, from 1.
    pub line: u32,
}

/// The operator of an assignment.
#[derive(Clone, Copy, Debug, PartialEq, Eq)]
pub enum AssignOp {
    /// `=`
    Set,
    /// `+=` and `++`
    Add,
    /// `-=` and `--`
    Sub,
    /// `*=`
    Mul,
    /// `/=`
    Div,
    /// `%=`
    Rem,
}

/// One item of a `cout` statement.
#[derive(Drop)]
pub enum PrintItem {
    /// An expression.
    Value(Expr),
    /// A text, with its escapes replaced.
    Str(Bytes),
    /// `endl`
    Endl,
}

/// A statement and the line of its first token.
#[cycle(stmt)]
#[derive(Drop)]
pub struct Stmt {
    /// What it is.
    pub kind: StmtKind,
    /// The line of its first token, from 1.
    pub line: u32,
}

/// What a statement is.
#[cycle(stmt)]
#[derive(Drop)]
pub enum StmtKind {
    /// `{ .. }`
    Block(List<Stmt>),
    /// `;`
    Empty,
    /// The declaration of one variable. A declaration of several names is several of these.
    Declare(Decl),
    /// An assignment. `p++` is `p += 1`, and `p--` is `p -= 1`.
    Assign {
        /// Where to.
        place: Expr,
        /// The operator.
        op: AssignOp,
        /// The right side.
        value: Expr,
    },
    /// A call for its effect.
    Call(Expr),
    /// `cout << item << item;`
    Print(List<PrintItem>),
    /// `if (test) yes else no`
    If {
        /// The condition.
        test: Expr,
        /// What runs where it is not 0.
        yes: Boxed<Stmt>,
        /// What runs where it is 0.
        no: Option<Boxed<Stmt>>,
    },
    /// `while (test) body`
    While {
        /// The condition.
        test: Expr,
        /// What runs while it is not 0.
        body: Boxed<Stmt>,
    },
    /// `for (start; test; step) body`
    For {
        /// Declarations or one statement, or nothing.
        start: List<Stmt>,
        /// The condition.
        test: Option<Expr>,
        /// What runs after the body.
        step: Option<Boxed<Stmt>>,
        /// What runs while the condition is not 0.
        body: Boxed<Stmt>,
    },
    /// `break;`, which leaves the innermost loop.
    Break,
    /// `continue;`, which ends a turn of the innermost loop.
    Continue,
    /// `par { .. }`, whose statements run concurrently.
    Par(List<Stmt>),
    /// `parfor (int name = start; test; step) body`, whose iterations run concurrently.
    ParFor {
        /// The variable's name.
        name: Text,
        /// What it starts with.
        start: Expr,
        /// The condition.
        test: Expr,
        /// What runs between two tests.
        step: Boxed<Stmt>,
        /// What each branch runs.
        body: Boxed<Stmt>,
    },
    /// `spawn call;`
    Spawn(Expr),
    /// `return;` or `return value;`
    Return(Option<Expr>),
}
