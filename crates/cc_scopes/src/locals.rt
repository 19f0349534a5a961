ghost use Rattle.std.specs.Prelude.{◌≡◌, [], ◌∷◌, ◌++◌, length, take, drop, is_some, MatchOption, OnOk, OnErr};
ghost use Rattle.cc_scopes.specs.Scope.{variable};

use crate::places::Places;
use crate::scope::Found;
use crate::state::Local;
use ccpp_edge::{List, Text};
use std::alloc::{AllocError, Global};
use std::marker::Model;

/// A variable in scope, and the place of the one of its name before it.
#[derive(Drop)]
pub struct Entry {
    local: Local,
    hides: Option<usize>,
}

/// The variables in scope, the latest last. Contracts see their list.
///
/// A name is looked up in time that grows with the logarithm of the number of names.
#[derive(Drop)]
pub struct Locals {
    all: List<Entry>,
    places: Places,
}

impl Model for Locals {
    ghost use Rattle.std.specs.Prelude.{List};
    ghost use Rattle.cc_scopes.specs.declared.state.Local.{Local};

    ghost Value = { List Local };

    ghost use Rattle.cc_scopes.specs.Places.{locals_of, AreKept};

    ghost view = { λ l. locals_of l.all };

    ghost invariant = { λ l. AreKept l.all l.places };
}

impl Locals {
    /// No variable is in scope, which takes no memory.
    pub fn new(alloc: Global) -> Locals
        ensures { result ≡ [] }
    {
        Locals {
            all: List::new(alloc),
            places: Places::new(alloc),
        }
    }

    /// The number of variables.
    pub fn len(&self) -> usize
        ensures { result ≡ length self.now }
    {
        self.all.len()
    }

    /// Brings a variable into scope, as the latest. Want of memory leaves those that were in scope.
    pub fn push(&mut self, alloc: Global, local: Local) -> Result<(), AllocError>
        ensures ok { OnOk result (self.new ≡ self.old ++ local ∷ []) }
        ensures err { OnErr result (self.new ≡ self.old) }
    {
        let name = Text::of(alloc, local.name.as_str())?;
        self.places.know(alloc, name.as_str())?;
        let hides = self.places.get(name.as_str());
        let place = self.all.len();
        self.all.push(Entry { local, hides })?;
        self.places.set(name.as_str(), Some(place));
        Ok(())
    }

    /// Takes the latest variable out of scope, and answers `None` exactly where none is in scope.
    pub fn pop(&mut self) -> Option<Local>
        ensures { MatchOption result ((self.old ≡ []) × (self.new ≡ [])) (λ last. self.old ≡ self.new ++ last ∷ []) }
    {
        let Some(Entry { local, hides }) = self.all.pop() else {
            return None;
        };
        self.places.set(local.name.as_str(), hides);
        Some(local)
    }

    /// Keeps the first `n` variables in scope.
    pub fn truncate(&mut self, n: usize)
        ensures { self.new ≡ take n self.old }
    {
        while self.len() > n {
            let _ = self.pop();
        }
    }

    /// The latest variable of a name.
    pub(crate) fn latest(&self, name: &Text) -> Option<Found>
        ensures { result ≡ variable name.now self.now }
    {
        match self.places.get(name.as_str()) {
            None => None,
            Some(place) => match self.all.get(place) {
                None => None,
                Some(entry) => Some(entry.local.found()),
            },
        }
    }

    /// Whether a variable of a name is in scope behind the first `n`.
    pub(crate) fn has_behind(&self, n: usize, name: &Text) -> bool
        ensures { result ≡ is_some (variable name.now (drop n self.now)) }
    {
        match self.places.get(name.as_str()) {
            None => false,
            Some(place) => place >= n,
        }
    }
}
