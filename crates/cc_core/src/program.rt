use crate::expression::Constant;
use crate::statement::Statement;
use cc_ops::{ClassShape, FunShape};
use ccpp_edge::List;

/// A function.
#[derive(Drop)]
pub struct Function {
    /// What a call needs to know of it.
    pub shape: FunShape,
    /// What it returns where it ends without `return`.
    pub default: Constant,
    /// Its statements.
    pub body: List<Statement>,
}

/// A program with each name resolved: this project's own core language.
#[derive(Drop)]
pub struct Program {
    /// The functions by their numbers, those of classes among them.
    pub functions: List<Function>,
    /// The classes by their numbers.
    pub classes: List<ClassShape>,
    /// The number of the function `main`.
    pub main: u32,
}
