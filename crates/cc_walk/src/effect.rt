ghost use Rattle.std.specs.Prelude.{◌≡◌, map, false};
ghost use Rattle.cc_ops.specs.Machine.{value_of};
ghost use Rattle.cc_walk.specs.Answered.{values_of};

use crate::live::Inside;
use ccpp_edge::List;
use global_ptr::Value;

/// The addresses of what a step made, and then the values that it found.
#[derive(Drop)]
pub(crate) enum Found {
    Nothing,
    One(Value),
    Many(List<Value>),
}

/// What becomes of the functions that a thread is inside.
#[derive(Clone, Copy)]
pub(crate) enum Entry {
    Stays,
    Enters(Inside),
    Leaves,
}

/// A thread that is made for a call, and its processor.
#[derive(Drop)]
pub(crate) struct Start {
    pub processor: u32,
    pub function: u32,
    pub this: Value,
    pub args: List<Value>,
}

/// What a step leaves its thread to do.
#[derive(Drop)]
pub(crate) struct Effect {
    pub found: Found,
    pub entry: Entry,
    pub start: Option<Start>,
    /// Whether the thread waits for the value of the thread that is made.
    pub calls: bool,
    /// How many branches are forked.
    pub branches: usize,
    /// How many processors were made.
    pub processors: u32,
}

impl Found {
    /// The values in order.
    pub fn as_slice(&self) -> &[Value]
        ensures { map value_of result.now ≡ values_of self.now }
    {
        match self {
            Found::Nothing => &[],
            Found::One(value) => std::slice::from_ref(value),
            Found::Many(values) => values.as_slice(),
        }
    }
}

impl Effect {
    /// A step that found these values, and no more.
    pub fn found(found: Found) -> Effect
        ensures { result ≡ record { found = found; entry = Entry.Stays; start = None; calls = false; branches = 0; processors = 0 } }
    {
        Effect {
            found,
            entry: Entry::Stays,
            start: None,
            calls: false,
            branches: 0,
            processors: 0,
        }
    }

    /// A step that found a value, and no more.
    pub fn one(value: Value) -> Effect
        ensures { result
            ≡ record { found = Found.One value; entry = Entry.Stays; start = None; calls = false; branches = 0; processors = 0 } }
    {
        Effect::found(Found::One(value))
    }

    /// A step that makes a thread for a call, and no more.
    pub fn start(start: Start, calls: bool) -> Effect
        ensures { result
            ≡ record { found = Found.Nothing; entry = Entry.Stays; start = Some start; calls = calls; branches = 0; processors = 0 } }
    {
        Effect {
            start: Some(start),
            calls,
            ..Effect::found(Found::Nothing)
        }
    }
}
