ghost use Rattle.std.specs.Prelude.{◌≡◌};
ghost use Rattle.cc_scopes.specs.Elab.{Gives};
ghost use Rattle.cc_scopes.specs.Scope as spec;
ghost use Rattle.cc_scopes.specs.Scope.{context};

use crate::state::{Local, State};
use crate::tables::Tables;
use crate::types::{Declared, Ty};
use cc_names::{Broken, ClassId, Names, StaticRule};
use ccpp_edge::Text;
use std::alloc::{AllocError, Global};

/// Where an expression or a statement stands.
///
/// A parallel part, which is a function's body or a branch without the branches in it, is known by the number of variables in
/// scope where it begins. Of two nested parts with one number the outer one has no variable for the inner one to write.
#[derive(Clone, Copy)]
pub struct Scope<'a> {
    /// The names of the program.
    pub names: &'a Names,
    /// What they stand for.
    pub tables: &'a Tables,
    /// How many constants are declared before.
    pub known: u32,
    /// The class whose function it is.
    pub class: Option<ClassId>,
    /// The type of what the function returns.
    pub result: Ty,
    /// Whether the function is the file's `main`.
    pub in_main: bool,
    /// Whether it is a constructor.
    pub in_constructor: bool,
    /// Whether it is within a `par` or a `parfor`.
    pub in_branch: bool,
    /// Whether a loop is around it in its parallel part.
    pub in_loop: bool,
    /// The parallel part.
    pub part: usize,
    /// The number of variables that were in scope where the innermost scope began.
    pub start: usize,
    /// The line of the innermost statement or declaration.
    pub line: u32,
}

/// A variable that a name stands for.
#[derive(Clone, Copy)]
pub struct Found {
    /// Its number in its function.
    pub number: u32,
    /// What it is declared as.
    pub declared: Declared,
    /// The parallel part that declares it.
    pub part: usize,
}

impl Local {
    /// The variable, as a name stands for it.
    pub(crate) fn found(&self) -> Found
        ensures { result ≡ spec.found_as self.now }
    {
        Found {
            number: self.number,
            declared: self.declared,
            part: self.part,
        }
    }
}

impl Scope<'_> {
    fn is_here(&self, state: &State, name: &Text) -> bool
        ensures { result ≡ spec.is_here (context self.now) name.now state.now }
    {
        state.locals.has_behind(self.start, name)
    }

    #[tactic(auto, unfolding(crate::specs::Scope::twice))]
    fn twice(&self, state: &mut State, name: &Text) -> Result<(), AllocError>
        ensures { Gives (spec.twice (context self.now) name.now state.old) result state.new }
    {
        if self.is_here(state, name) {
            return state.note(Broken::Rule {
                rule: StaticRule::LocalTwice,
                line: self.line,
            });
        }
        Ok(())
    }

    /// From here on the name means this variable, which this parallel part declares.
    pub fn bring(
        &self,
        alloc: Global,
        state: &mut State,
        name: &Text,
        number: u32,
        declared: Declared,
    ) -> Result<(), AllocError>
        ensures { Gives (spec.bring (context self.now) name.now number declared state.old) result state.new }
    {
        let name = Text::of(alloc, name.as_str())?;
        let part = self.part;
        state.locals.push(
            alloc,
            Local {
                name,
                number,
                declared,
                part,
            },
        )
    }

    /// Declares a variable, and gives its number. A name that this scope has already breaks a rule.
    #[tactic(auto, unfolding(crate::specs::Scope::declare))]
    pub fn declare(
        &self,
        alloc: Global,
        state: &mut State,
        name: &Text,
        declared: Declared,
    ) -> Result<u32, AllocError>
        ensures { Gives (spec.declare (context self.now) name.now declared state.old) result state.new }
    {
        self.twice(state, name)?;
        let number = state.number(declared)?;
        self.bring(alloc, state, name, number, declared)?;
        Ok(number)
    }
}

impl State {
    /// The number of a new variable. More variables than there are numbers fit into no memory.
    fn number(&mut self, declared: Declared) -> Result<u32, AllocError>
        ensures { Gives (spec.number declared self.old) result self.new }
    {
        let Ok(number) = u32::try_from(self.made.len()) else {
            return Err(AllocError);
        };
        self.made.push(declared)?;
        Ok(number)
    }
}
