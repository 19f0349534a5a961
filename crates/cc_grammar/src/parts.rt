//! What symbols of the grammar stand for that are no nodes of the tree.

use cc_tree::{Base, Expr, Stmt};
use ccpp_edge::{Boxed, List, Text};

/// A name and its line.
#[derive(Drop)]
pub struct Name {
    pub text: Text,
    pub line: u32,
}

/// The value of a decimal literal, and its line.
#[derive(Clone, Copy, Debug, PartialEq, Eq)]
pub struct Number {
    pub value: i64,
    pub line: u32,
}

/// What stands between the first word of a type and the declared name.
#[derive(Clone, Copy, Debug, PartialEq, Eq)]
pub struct Pointer {
    /// Whether there is a `*`.
    pub star: bool,
    /// Whether `global` follows it.
    pub remote: bool,
    /// Whether `sync` follows it.
    pub once: bool,
}

/// What a type begins with, and the line of its first token.
#[derive(Drop)]
pub struct Spec {
    pub base: Base,
    pub line: u32,
}

/// A declared name, with what stands between it and the first word of its type, and the length of an array.
#[derive(Drop)]
pub struct Slot {
    pub pointer: Pointer,
    pub name: Text,
    pub length: Option<Expr>,
}

/// The statements between two braces, and the line of the first brace.
#[derive(Drop)]
pub struct Block {
    pub body: List<Stmt>,
    pub line: u32,
}

/// What stands in the parentheses of a `for`.
#[derive(Drop)]
pub struct Header {
    pub start: List<Stmt>,
    pub test: Option<Expr>,
    pub step: Option<Boxed<Stmt>>,
}

/// What stands in the parentheses of a `parfor`.
#[derive(Drop)]
pub struct Counter {
    pub name: Text,
    pub start: Expr,
    pub test: Expr,
    pub step: Stmt,
}

/// How a root with its tails ends.
#[derive(Clone, Copy, Debug, PartialEq, Eq)]
pub enum Ending {
    /// As a place: a name, an index, or a member.
    Place,
    /// As a call.
    Call,
    /// As neither.
    Neither,
}

/// How tightly operators bind, from the loosest to the tightest.
#[derive(Clone, Copy, Debug, PartialEq, Eq)]
pub enum Precedence {
    /// `||`
    Or,
    /// `&&`
    And,
    /// `==` and `!=`
    Equality,
    /// `<`, `<=`, `>` and `>=`
    Order,
    /// `+` and `-`
    Sum,
    /// `*`, `/` and `%`
    Product,
}
