//! Expressions, places and calls within so many levels.

ghost use Rattle.std.specs.Prelude.{◌≡◌};
ghost use Rattle.cc_grammar.specs.Reading.{Gives};
ghost use Rattle.cc_grammar.specs.ReadExpressions as read;

use crate::cursor::Cursor;
use crate::expressions::{Expressions, Form, within};
use cc_grammar::Fault;
use cc_lexer::Mark;
use cc_tree::{Expr, Suffix, UnaryOp};
use ccpp_edge::List;
use std::alloc::Global;

/// Reads expressions, places and calls that open at most `depth` levels.
#[derive(Clone, Copy)]
pub struct Terms {
    pub alloc: Global,
    pub depth: usize,
}

impl Terms {
    /// An expression.
    pub fn expr(&self, tokens: &mut Cursor<'_>) -> Result<Expr, Fault>
        ensures { Gives (read.expr self.now.depth tokens.old) result tokens.new }
    {
        within(self.alloc, tokens, self.depth, Form::Whole)
    }

    /// An expression within a level that is open.
    pub fn inner(&self, tokens: &mut Cursor<'_>) -> Result<Expr, Fault>
        ensures { Gives (read.inner_expr self.now.depth tokens.old) result tokens.new }
    {
        let expressions = Expressions {
            alloc: self.alloc,
            depth: self.depth,
            nested: within,
        };
        expressions.inner(tokens, Form::Whole)
    }

    /// Arguments in parentheses.
    pub fn args(&self, tokens: &mut Cursor<'_>) -> Result<List<Expr>, Fault>
        ensures { Gives (read.args_at self.now.depth tokens.old) result tokens.new }
    {
        let expressions = Expressions {
            alloc: self.alloc,
            depth: self.depth,
            nested: within,
        };
        expressions.args(tokens)
    }

    /// An expression in brackets, or none.
    pub fn maybe_bracketed(&self, tokens: &mut Cursor<'_>) -> Result<Option<Expr>, Fault>
        ensures { Gives (read.maybe_bracketed_at self.now.depth tokens.old) result tokens.new }
    {
        let expressions = Expressions {
            alloc: self.alloc,
            depth: self.depth,
            nested: within,
        };
        expressions.maybe_bracketed(tokens)
    }

    /// An expression without comparisons.
    pub fn sum(&self, tokens: &mut Cursor<'_>) -> Result<Expr, Fault>
        ensures { Gives (read.sum_at self.now.depth tokens.old) result tokens.new }
    {
        let expressions = Expressions {
            alloc: self.alloc,
            depth: self.depth,
            nested: within,
        };
        expressions.sum(tokens)
    }

    /// A place.
    pub fn place(&self, tokens: &mut Cursor<'_>) -> Result<Expr, Fault>
        ensures { Gives (read.place self.now.depth tokens.old) result tokens.new }
    {
        let expressions = Expressions {
            alloc: self.alloc,
            depth: self.depth,
            nested: within,
        };
        expressions.place(tokens)
    }

    /// A call.
    pub fn call(&self, tokens: &mut Cursor<'_>) -> Result<Expr, Fault>
        ensures { Gives (read.call self.now.depth tokens.old) result tokens.new }
    {
        let expressions = Expressions {
            alloc: self.alloc,
            depth: self.depth,
            nested: within,
        };
        expressions.call(tokens)
    }

    /// A `*` and its operand.
    pub fn deref(&self, tokens: &mut Cursor<'_>) -> Result<Expr, Fault>
        ensures { Gives (read.deref self.now.depth tokens.old) result tokens.new }
    {
        let expressions = Expressions {
            alloc: self.alloc,
            depth: self.depth,
            nested: within,
        };
        expressions.prefix(tokens, Mark::Star, UnaryOp::Deref)
    }

    /// What a chain of tails begins with.
    pub fn root(&self, tokens: &mut Cursor<'_>) -> Result<Expr, Fault>
        ensures { Gives (read.at_level read.root self.now.depth tokens.old) result tokens.new }
    {
        let expressions = Expressions {
            alloc: self.alloc,
            depth: self.depth,
            nested: within,
        };
        expressions.root(tokens)
    }

    /// The tails of a chain.
    pub fn tails(&self, tokens: &mut Cursor<'_>) -> Result<List<Suffix>, Fault>
        ensures { Gives (read.at_level read.tails self.now.depth tokens.old) result tokens.new }
    {
        let expressions = Expressions {
            alloc: self.alloc,
            depth: self.depth,
            nested: within,
        };
        expressions.tails(tokens)
    }
}
