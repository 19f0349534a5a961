//! What stands at the level of the file, and within a class.

use crate::expressions::Expr;
use crate::statements::{Decl, Stmt, TypeName};
use ccpp_edge::{List, Text};

/// A parameter.
#[derive(Drop)]
pub struct Param {
    /// Its type.
    pub ty: TypeName,
    /// Its name.
    pub name: Text,
    /// The line of its first token, from 1.
    pub line: u32,
}

/// A function, of the file or of a class.
#[derive(Drop)]
pub struct Function {
    /// Its name.
    pub name: Text,
    /// Whether `atomic` stands before it.
    pub atomic: bool,
    /// The type of its result.
    pub result: TypeName,
    /// Its parameters, in order.
    pub params: List<Param>,
    /// The statements of its block.
    pub body: List<Stmt>,
    /// The line of its first token, from 1.
    pub line: u32,
}

/// A member of a class. `public:` and `private:` are none.
#[derive(Drop)]
pub enum Member {
    /// One field. A line of several names is several of these.
    Field(Decl),
    /// A function.
    Func(Function),
    /// The constructor.
    Build {
        /// The name before its parameters.
        name: Text,
        /// Its parameters, in order.
        params: List<Param>,
        /// The statements of its block.
        body: List<Stmt>,
        /// The line of its first token, from 1.
        line: u32,
    },
}

/// A class.
#[derive(Drop)]
pub struct ClassDecl {
    /// Its name.
    pub name: Text,
    /// Whether `global` stands before it, so that its objects are processors.
    pub remote: bool,
    /// Its members, in order.
    pub members: List<Member>,
    /// The line of its first token, from 1.
    pub line: u32,
}

/// What stands at the level of the file.
#[derive(Drop)]
pub enum Item {
    /// `const int name = value;`
    Const {
        /// Its name.
        name: Text,
        /// Its value.
        value: Expr,
        /// The line of its first token, from 1.
        line: u32,
    },
    /// A class.
    Class(ClassDecl),
    /// A function.
    Func(Function),
}

/// A program: all items of its file, in order.
#[derive(Drop)]
pub struct Program {
    /// The items, in order.
    pub items: List<Item>,
}
