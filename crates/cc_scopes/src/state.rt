ghost use Rattle.std.specs.Prelude.{◌≡◌};
ghost use Rattle.cc_scopes.specs.Elab as spec;
ghost use Rattle.cc_scopes.specs.Elab.{Gives};

use crate::locals::Locals;
use crate::sharing::{Share, ShareRule};
use crate::types::Declared;
use cc_names::{Broken, FunId};
use ccpp_edge::{List, Text};
use std::alloc::{AllocError, Global};

/// A variable in scope.
#[derive(Drop)]
pub struct Local {
    /// Its name.
    pub name: Text,
    /// Its number in its function.
    pub number: u32,
    /// What it is declared as.
    pub declared: Declared,
    /// The parallel part that declares it, as `Scope` numbers them.
    pub part: usize,
}

/// A call on this processor.
#[derive(Clone, Copy)]
pub struct Call {
    /// What is called.
    pub function: FunId,
    /// The line of the statement.
    pub line: u32,
}

/// What is collected while a function is read.
#[derive(Drop)]
pub struct State {
    /// The variables in scope, the latest last.
    pub locals: Locals,
    /// The variables of the function so far, by their numbers.
    pub made: List<Declared>,
    /// The static rules and limits that are broken.
    pub broken: List<Broken>,
    /// The rules of sharing that are broken.
    pub shared: List<Share>,
    /// The lines of what an atomic function may not do.
    pub blocks: List<u32>,
    /// The calls on this processor.
    pub calls: List<Call>,
}

impl State {
    /// Nothing is collected yet, which takes no memory.
    pub fn new(alloc: Global) -> State
        ensures { result ≡ spec.nothing_yet }
    {
        State {
            locals: Locals::new(alloc),
            made: List::new(alloc),
            broken: List::new(alloc),
            shared: List::new(alloc),
            blocks: List::new(alloc),
            calls: List::new(alloc),
        }
    }

    /// Adds a rule or a limit that is broken.
    pub fn note(&mut self, broken: Broken) -> Result<(), AllocError>
        ensures { Gives (spec.note broken self.old) result self.new }
    {
        self.broken.push(broken)
    }

    /// Adds a rule of sharing that is broken.
    pub fn share(&mut self, rule: ShareRule, line: u32) -> Result<(), AllocError>
        ensures { Gives (spec.share rule line self.old) result self.new }
    {
        self.shared.push(Share { rule, line })
    }

    /// Adds what an atomic function may not do.
    pub fn block(&mut self, line: u32) -> Result<(), AllocError>
        ensures { Gives (spec.block line self.old) result self.new }
    {
        self.blocks.push(line)
    }

    /// Adds what an atomic function may not do, where it is that.
    pub fn block_if(&mut self, blocks: bool, line: u32) -> Result<(), AllocError>
        ensures { Gives (spec.block_if blocks line self.old) result self.new }
    {
        if blocks {
            return self.block(line);
        }
        Ok(())
    }

    /// Adds a call on this processor.
    pub fn call(&mut self, function: FunId, line: u32) -> Result<(), AllocError>
        ensures { Gives (spec.call function line self.old) result self.new }
    {
        self.calls.push(Call { function, line })
    }

    /// Ends a scope: the variables from this place on are no longer in it.
    pub fn leave(&mut self, start: usize)
        ensures { spec.leave start self.old ≡ (tt, self.new) }
    {
        self.locals.truncate(start);
    }
}
