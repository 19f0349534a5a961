ghost use Rattle.std.specs.Prelude.{◌≡◌, ℕ, List, None, OnOk};
ghost use Rattle.cc_scopes.specs.Places.{IsKnown, KeepsPlaces, MovesPlace, place_of};

use std::alloc::{AllocError, Global};
use std::collections::BTreeMap;

/// Where the latest variable of each name stands. A name without one may be known all the same.
#[derive(Drop)]
pub(crate) struct Places {
    map: BTreeMap<String, Option<usize>>,
}

impl Places {
    /// No name is known, which takes no memory.
    pub(crate) fn new(alloc: Global) -> Places
        ensures { (name : List ℕ) → place_of result name ≡ None }
    {
        Places {
            map: BTreeMap::new(alloc),
        }
    }

    /// Where the latest variable of a name stands, in time that grows with the logarithm of the number of names.
    pub(crate) fn get(&self, name: &str) -> Option<usize>
        ensures { result ≡ place_of self.now name.now }
    {
        match self.map.get(name) {
            None => None,
            Some(place) => *place,
        }
    }

    /// Makes a name known. No place changes.
    pub(crate) fn know(&mut self, alloc: Global, name: &str) -> Result<(), AllocError>
        ensures keeps { KeepsPlaces self.old self.new }
        ensures known { OnOk result (IsKnown self.new name.now) }
    {
        if self.map.contains_key(name) {
            return Ok(());
        }
        self.map.insert(String::from_str(alloc, name)?, None)?;
        Ok(())
    }

    /// Says where the latest variable of a known name stands, if there is one.
    pub(crate) fn set(&mut self, name: &str, place: Option<usize>)
        requires { IsKnown self.old name.now }
        ensures { MovesPlace self.old self.new name.now place }
    {
        if let Some(at) = self.map.get_mut(name) {
            *at = place;
        }
    }
}
