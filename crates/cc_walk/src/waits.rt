ghost use Rattle.std.specs.Prelude.{◌≡◌, ℕ, List, ◌&&◌, not, is_some, reverse, drop};
ghost use Rattle.cc_ops.specs.Machine.{value_of};
ghost use Rattle.cc_ops.specs.Shelves as shelves;
ghost use Rattle.cc_core.specs.Core.{function_shape};
ghost use Rattle.code_thread.specs.View.{ask_of};
ghost use Rattle.numbered_runs.specs.Looks.{needs, check_all, has_ended, all_ended};
ghost use Rattle.walk_objects.specs.Reads.{reading};
ghost use Rattle.cc_walk.specs.Asker.{machine_with, shapes_of};
ghost use Rattle.cc_walk.specs.Verdicts.{is_hold};
ghost use Rattle.cc_walk.specs.Views.{runner_of};

use crate::answer::Asker;
use crate::arguments::first_of;
use crate::limits::has_slots;
use cc_core::How;
use code_thread::{Ask, is_atomic};
use global_ptr::Value;
use walk_objects::Objects;

impl Asker<'_> {
    /// Whether the thread waits at what it asks.
    pub fn waits(&self, objects: &Objects, ask: &Ask) -> bool
        ensures { (output : List ℕ) → let h = shapes_of self.now in result
            ≡ is_hold (check_all (machine_with self.now objects.now output) self.now.processor (runner_of self.now.live.now) (needs h (ask_of h ask.now))) }
    {
        match *ask {
            Ask::Reads(_, from) => is_undefined(objects, from),
            Ask::ForksOne(variable) => {
                self.table.has_room(self.processor, 1)
                    && has_slots(objects, self.processor, 1)
                    && is_undefined(objects, variable)
            }
            Ask::Calls(How::On, function, args) => self.is_held(objects, function, first_of(args)),
            Ask::Enters(function, this, _) => self.is_held(objects, function, this),
            Ask::Joins(made) => self.going(made).is_some(),
            _ => false,
        }
    }

    /// Where a thread that waits is looked at first when it is asked again: of a join the place of a branch that goes on.
    pub fn seen(&self, ask: &Ask) -> usize {
        match *ask {
            Ask::Joins(made) => self.going(made).unwrap_or(0),
            _ => 0,
        }
    }

    /// Whether a function is atomic and a thread is inside an atomic function of the object already.
    fn is_held(&self, objects: &Objects, function: u32, object: Value) -> bool
        ensures { result ≡ ((function_shape (shapes_of self.now) function).atomic && shelves.is_held objects.now (value_of object)) }
    {
        is_atomic(self.code, function) && objects.is_held(object)
    }

    /// The place, among these of the threads that it made, of one that goes on: the first from where one was last seen, else the first of
    /// all. What stands before that place had ended when it was passed; so however often a step of the thread is asked for, each is passed a
    /// few times at most.
    fn going(&self, made: &[usize]) -> Option<usize>
        ensures { not (is_some result) ≡ all_ended self.now.table.now self.now.live.now.kids (reverse made.now) }
    {
        match self.going_from(self.live.seen, made) {
            Some(place) => Some(place),
            None => self.going_from(0, made),
        }
    }

    /// The first place among these, from a place on, of one that goes on.
    fn going_from(&self, from: usize, made: &[usize]) -> Option<usize>
        ensures { not (is_some result) ≡ all_ended self.now.table.now self.now.live.now.kids (drop from made.now) }
    {
        for place in from..made.len() {
            if !self.has_ended(made[place]) {
                return Some(place);
            }
        }
        None
    }

    /// Whether of the threads that it made one has ended.
    fn has_ended(&self, k: usize) -> bool
        ensures { result ≡ has_ended self.now.table.now self.now.live.now.kids k }
    {
        match self.live.kids.get(k) {
            Some(kid) => self.table.ended(*kid).is_some(),
            None => false,
        }
    }
}

/// Whether a read of this address waits for a value.
fn is_undefined(objects: &Objects, from: Value) -> bool
    ensures { result ≡ is_hold (reading objects.now (value_of from)) }
{
    matches!(objects.read(from), Ok(None))
}
