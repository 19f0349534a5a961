ghost use Rattle.std.specs.Prelude.{◌≡◌};
ghost use Rattle.cc_scopes.specs.Lengths as spec;
ghost use Rattle.cc_scopes.specs.Elab.{Gives};
ghost use Rattle.cc_scopes.specs.Scope.{context};

use crate::scope::Scope;
use crate::state::State;
use crate::typed::Typed;
use cc_names::{Broken, StaticLimit, StaticRule};
use std::alloc::AllocError;

const MAX_LENGTH: i64 = 65_536;

impl Scope<'_> {
    fn bad_constant(&self) -> Broken
        ensures { result ≡ spec.bad_constant (context self.now) }
    {
        Broken::Rule {
            rule: StaticRule::BadConst,
            line: self.line,
        }
    }

    fn no_length(&self, state: &mut State, broken: Broken) -> Result<Option<u32>, AllocError>
        ensures { Gives (spec.no_length broken state.old) result state.new }
    {
        state.note(broken)?;
        Ok(None)
    }

    fn value_length(&self, state: &mut State, value: Option<i64>) -> Result<Option<u32>, AllocError>
        ensures { Gives (spec.value_length (context self.now) value state.old) result state.new }
    {
        match value {
            None => self.no_length(state, self.bad_constant()),
            Some(n) => self.length_in_range(state, n),
        }
    }

    #[tactic(auto, unfolding(crate::specs::Lengths::length_in_range))]
    fn length_in_range(&self, state: &mut State, n: i64) -> Result<Option<u32>, AllocError>
        ensures { Gives (spec.length_in_range (context self.now) n state.old) result state.new }
    {
        if n < 1 || n > MAX_LENGTH {
            let broken = Broken::Limit {
                which: StaticLimit::ArrayLength,
                line: self.line,
            };
            return self.no_length(state, broken);
        }
        Ok(Some(n as u32))
    }

    /// The length that an expression gives, and none where a rule is broken.
    pub fn length_of(&self, state: &mut State, typed: Typed) -> Result<Option<u32>, AllocError>
        ensures { Gives (spec.length_of (context self.now) typed state.old) result state.new }
    {
        match typed {
            Typed::Broken => self.no_length(state, self.bad_constant()),
            Typed::Spoiled => Ok(None),
            Typed::Value(_) => self.no_length(state, self.bad_constant()),
            Typed::This(_, _) => self.no_length(state, self.bad_constant()),
            Typed::Constant(_, value) => self.value_length(state, value),
            Typed::Place(_) => self.no_length(state, self.bad_constant()),
            Typed::Array(_, _) => self.no_length(state, self.bad_constant()),
            Typed::Object(_) => self.no_length(state, self.bad_constant()),
        }
    }

    fn no_value(&self, state: &mut State) -> Result<Option<i64>, AllocError>
        ensures { Gives (spec.no_value (context self.now) state.old) result state.new }
    {
        state.note(self.bad_constant())?;
        Ok(None)
    }

    fn value_or_fault(
        &self,
        state: &mut State,
        value: Option<i64>,
    ) -> Result<Option<i64>, AllocError>
        ensures { Gives (spec.value_or_fault (context self.now) value state.old) result state.new }
    {
        match value {
            None => self.no_value(state),
            Some(n) => Ok(Some(n)),
        }
    }

    /// The value of a named constant, and none where a rule is broken.
    pub fn constant_of(&self, state: &mut State, typed: Typed) -> Result<Option<i64>, AllocError>
        ensures { Gives (spec.constant_of (context self.now) typed state.old) result state.new }
    {
        match typed {
            Typed::Broken => self.no_value(state),
            Typed::Spoiled => Ok(None),
            Typed::Value(_) => self.no_value(state),
            Typed::This(_, _) => self.no_value(state),
            Typed::Constant(_, value) => self.value_or_fault(state, value),
            Typed::Place(_) => self.no_value(state),
            Typed::Array(_, _) => self.no_value(state),
            Typed::Object(_) => self.no_value(state),
        }
    }
}
