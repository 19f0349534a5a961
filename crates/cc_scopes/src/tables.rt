use crate::types::{Declared, Ty};
use cc_names::FunId;
use ccpp_edge::List;

/// A member of a class.
#[derive(Clone, Copy)]
pub enum Member {
    /// A field.
    Field {
        /// What it is declared as.
        declared: Declared,
        /// How many cells of the object lie before it.
        offset: u32,
    },
    /// A function.
    Method(FunId),
}

/// A class.
#[derive(Drop)]
pub struct Class {
    /// Whether it is a global one, each object of which is a processor.
    pub remote: bool,
    /// Its members, by their numbers.
    pub members: List<Member>,
    /// The types of its constructor's parameters; none where it has no constructor.
    pub constructor: List<Ty>,
}

/// How a function is called.
#[derive(Drop)]
pub struct Signature {
    /// The types of its parameters.
    pub params: List<Ty>,
    /// The type of its result.
    pub result: Ty,
    /// Whether it is the file's `main`, which no program calls.
    pub is_main: bool,
}

/// What the classes, functions and constants of a program are, by their numbers.
#[derive(Drop)]
pub struct Tables {
    /// The classes.
    pub classes: List<Class>,
    /// The functions, those of classes among them.
    pub functions: List<Signature>,
    /// The values of the constants, and none for one that breaks a rule.
    pub constants: List<Option<i64>>,
}
