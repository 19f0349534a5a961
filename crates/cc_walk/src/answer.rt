ghost use Rattle.std.specs.Prelude.{◌≡◌, List, [], Bool, if◌then◌else◌, map, replicate, IfOk};
ghost use Rattle.cc_ops.specs.Classes as classes;
ghost use Rattle.cc_ops.specs.Values as values;
ghost use Rattle.cc_ops.specs.Machine.{value_of, cell_of, same_address, IsBuilt};
ghost use Rattle.cc_ops.specs.Shelves.{Shelf, slots_in, home_in};
ghost use Rattle.cc_core.specs.Core.{function_shape, class_shape};
ghost use Rattle.cc_core.specs.Needs as needs;
ghost use Rattle.cc_core.specs.Needs.{most_threads, most_slots, most_calls};
ghost use Rattle.cc_core.specs.Next.{call_ask, spawn_ask, object_ask};
ghost use Rattle.cc_core.specs.Asks as asks;
ghost use Rattle.cc_core.specs.View.{how_of, part_of};
ghost use Rattle.stack_code.specs.View.{code_of};
ghost use Rattle.code_thread.specs.View.{ask_of};
ghost use Rattle.numbered_runs.specs.Machine.{made_in};
ghost use Rattle.cc_walk.specs.Answered.{IsAnswered};
ghost use Rattle.cc_walk.specs.Asker.{machine_with, shapes_of, AnswersAsk, IsMet, remote_ask};
ghost use Rattle.cc_walk.specs.Views.{runner_of};

use crate::arguments::{after_first, first_of};
use crate::effect::{Effect, Entry, Found, Start};
use crate::holders::{leave_innermost, note_held};
use crate::limits::{MOST_CALLS, MOST_PROCESSORS, MOST_SLOTS, has_slots};
use crate::live::{Inside, Live};
use crate::parameters::parameters;
use crate::printing::print;
use crate::sent::{as_kinds, without_void};
use crate::stop::Stop;
use crate::table::Table;
use cc_core::{How, PrintPart};
use cc_ops::{BuildError, Cell, Kind, indexed, int_of, shifted};
use ccpp_edge::{Bytes, List};
use code_thread::{Ask, class, function as function_of, parameters as kinds_of};
use global_ptr::{FaultKind, Value};
use stack_code::Code;
use std::alloc::{AllocError, Global};
use walk_objects::Objects;

/// A thread that asks, with what it knows besides the objects.
#[derive(Clone, Copy)]
pub(crate) struct Asker<'a> {
    pub alloc: Global,
    pub code: &'a Code,
    pub table: &'a Table,
    pub live: &'a Live,
    pub processor: u32,
}

impl Asker<'_> {
    /// Answers what the thread asks. A fault changes nothing.
    pub fn answer(
        &self,
        ask: &Ask,
        objects: &mut Objects,
        output: &mut Bytes,
    ) -> Result<Effect, Stop>
        ensures { IsAnswered (machine_with self.now objects.old output.old) self.now.processor (runner_of self.now.live.now)
            (ask_of (shapes_of self.now) ask.now) result objects.new output.new }
    {
        match *ask {
            Ask::Reads(_, from) => self.reads(objects, from),
            Ask::Writes(_, to, value) => self.writes(objects, to, value),
            Ask::Indexes(array, length, index) => Ok(Effect::one(indexed(array, length, index)?)),
            Ask::Shifts(pointer, index) => Ok(Effect::one(shifted(pointer, index)?)),
            Ask::Computes(op, args) => Ok(Effect::one(op.apply(args)?)),
            Ask::Tests | Ask::Joins(_) => Ok(Effect::found(Found::Nothing)),
            Ask::Makes(kind, count) => self.makes(objects, kind, count),
            Ask::MakesWith(kind, value) => self.makes_with(objects, kind, value),
            Ask::Constructs(remote, class, args) => self.constructs(objects, remote, class, args),
            Ask::Calls(how, function, args) => self.calls(objects, how, function, args),
            Ask::Spawns(how, function, args) => self.spawns(how, function, args),
            Ask::Enters(function, this, args) => self.enters(objects, function, this, args),
            Ask::Leaves => Ok(self.leaves(objects)),
            Ask::ForksAll(count) => self.forks_all(count),
            Ask::ForksOne(variable) => self.forks_one(objects, variable),
            Ask::Prints(parts, args) => self.prints(output, parts, args),
        }
    }

    fn reads(&self, objects: &Objects, from: Value) -> Result<Effect, Stop>
        ensures { (remote : Bool) → AnswersAsk self.now (asks.Reads remote (value_of from)) objects.now result objects.now }
    {
        match objects.read(from)? {
            Some(value) => Ok(Effect::one(value)),
            None => Ok(Effect::found(Found::Nothing)),
        }
    }

    fn writes(&self, objects: &mut Objects, to: Value, value: Value) -> Result<Effect, Stop>
        ensures { (remote : Bool) → AnswersAsk self.now (asks.Writes remote (value_of to) (value_of value)) objects.old result objects.new }
    {
        objects.write(to, value)?;
        Ok(Effect::found(Found::Nothing))
    }

    fn makes(&self, objects: &mut Objects, kind: Kind, count: u32) -> Result<Effect, Stop>
        ensures { AnswersAsk self.now (asks.Makes kind count) objects.old result objects.new }
    {
        self.slots_room(objects, u64::from(count))?;
        let cells = fresh_cells(self.alloc, kind, count)?;
        let address = objects.make(self.processor, cells)?;
        Ok(Effect::one(address))
    }

    fn makes_with(&self, objects: &mut Objects, kind: Kind, value: Value) -> Result<Effect, Stop>
        ensures { AnswersAsk self.now (asks.MakesWith kind (value_of value)) objects.old result objects.new }
    {
        self.slots_room(objects, 1)?;
        let mut cells = List::new(self.alloc);
        cells.push(Cell::started(kind, value))?;
        let address = objects.make(self.processor, cells)?;
        Ok(Effect::one(address))
    }

    /// A new object, on a processor of its own where it is remote.
    fn constructs(
        &self,
        objects: &mut Objects,
        remote: bool,
        class: u32,
        args: &[Value],
    ) -> Result<Effect, Stop>
        ensures { AnswersAsk self.now (object_ask remote class (map value_of args.now)) objects.old result objects.new }
    {
        if remote {
            return self.new_processor(objects, class, args);
        }
        self.builds(objects, class, args)
    }

    fn builds(&self, objects: &mut Objects, class: u32, args: &[Value]) -> Result<Effect, Stop>
        ensures { AnswersAsk self.now (asks.Builds class (map value_of args.now)) objects.old result objects.new }
    {
        self.slots_room(objects, self.size(class))?;
        let cells = self.construct(class, args)?;
        let address = objects.make(self.processor, cells)?;
        Ok(Effect::one(address))
    }

    fn new_processor(
        &self,
        objects: &mut Objects,
        class: u32,
        args: &[Value],
    ) -> Result<Effect, Stop>
        ensures { AnswersAsk self.now (asks.NewProcessor class (map values.no_void (map value_of args.now))) objects.old result objects.new }
    {
        let number = objects.processors();
        met(number < MOST_PROCESSORS, FaultKind::ProcessorsFull)?;
        met(self.size(class) <= MOST_SLOTS, FaultKind::StoreFull)?;
        let sent = without_void(self.alloc, args)?;
        let cells = self.construct(class, sent.as_slice())?;
        objects.add_processor()?;
        let address = objects.make(number as u32, cells)?;
        Ok(Effect {
            processors: 1,
            ..Effect::one(address)
        })
    }

    fn calls(
        &self,
        objects: &mut Objects,
        how: How,
        function: u32,
        args: &[Value],
    ) -> Result<Effect, Stop>
        ensures { AnswersAsk self.now (call_ask (function_shape (shapes_of self.now) function) (how_of how) function (map value_of args.now))
            objects.old result objects.new }
    {
        match how {
            How::Alone => self.enters(objects, function, Value::Void, args),
            How::On => self.enters(objects, function, first_of(args), after_first(args)),
            How::Remote => self.remote(true, function, args),
        }
    }

    fn spawns(&self, how: How, function: u32, args: &[Value]) -> Result<Effect, Stop>
        ensures { (shelves : List Shelf)
            → AnswersAsk self.now (spawn_ask (function_shape (shapes_of self.now) function) (how_of how) function (map value_of args.now))
            shelves result shelves }
    {
        match how {
            How::Alone => self.starts(function, Value::Void, args),
            How::On => self.starts(function, first_of(args), after_first(args)),
            How::Remote => self.remote(false, function, args),
        }
    }

    /// A spawn on the thread's own processor.
    fn starts(&self, function: u32, this: Value, args: &[Value]) -> Result<Effect, Stop>
        ensures { (shelves : List Shelf) → AnswersAsk self.now (asks.Spawns function (value_of this) (map value_of args.now)) shelves result shelves }
    {
        object_there(this)?;
        self.threads_room(self.processor, 1)?;
        let args = List::from_slice(self.alloc, args)?;
        let start = Start {
            processor: self.processor,
            function,
            this,
            args,
        };
        Ok(Effect::start(start, false))
    }

    /// A call or a spawn through a global pointer.
    fn remote(&self, calls: bool, function: u32, args: &[Value]) -> Result<Effect, Stop>
        ensures { (shelves : List Shelf)
            → AnswersAsk self.now (remote_ask calls (function_shape (shapes_of self.now) function) function (map value_of args.now))
            shelves result shelves }
    {
        let this = first_of(args);
        object_there(this)?;
        let processor = home_of(this);
        self.threads_room(processor, 1)?;
        let args = as_kinds(self.alloc, kinds_of(self.code, function), after_first(args))?;
        let start = Start {
            processor,
            function,
            this,
            args,
        };
        Ok(Effect::start(start, calls))
    }

    fn enters(
        &self,
        objects: &mut Objects,
        function: u32,
        this: Value,
        args: &[Value],
    ) -> Result<Effect, Stop>
        ensures { AnswersAsk self.now (asks.Enters function (value_of this) (map value_of args.now)) objects.old result objects.new }
    {
        object_there(this)?;
        met(self.live.inside.len() < MOST_CALLS, FaultKind::CallDepth)?;
        self.slots_room(objects, self.arity(function))?;
        let kinds = kinds_of(self.code, function);
        let addresses = parameters(self.alloc, objects, self.processor, kinds, args)?;
        note_held(self.code, objects, function, this, true);
        let inside = Inside {
            function,
            object: this,
        };
        Ok(Effect {
            entry: Entry::Enters(inside),
            ..Effect::found(Found::Many(addresses))
        })
    }

    fn leaves(&self, objects: &mut Objects) -> Effect
        ensures { AnswersAsk self.now asks.Leaves objects.old (Ok result) objects.new }
    {
        leave_innermost(self.code, objects, &self.live.inside);
        Effect {
            entry: Entry::Leaves,
            ..Effect::found(Found::Nothing)
        }
    }

    fn forks_all(&self, count: usize) -> Result<Effect, Stop>
        ensures { (shelves : List Shelf) → AnswersAsk self.now (asks.ForksAll count) shelves result shelves }
    {
        self.threads_room(self.processor, count)?;
        Ok(Effect {
            branches: count,
            ..Effect::found(Found::Nothing)
        })
    }

    fn forks_one(&self, objects: &mut Objects, variable: Value) -> Result<Effect, Stop>
        ensures { AnswersAsk self.now (asks.ForksOne (value_of variable)) objects.old result objects.new }
    {
        self.threads_room(self.processor, 1)?;
        self.slots_room(objects, 1)?;
        let Some(value) = objects.read(variable)? else {
            return Ok(Effect::found(Found::Nothing));
        };
        let mut cells = List::new(self.alloc);
        cells.push(Cell::Plain(value))?;
        let mut found = List::new(self.alloc);
        found.push(objects.make(self.processor, cells)?)?;
        found.push(value)?;
        Ok(Effect {
            branches: 1,
            ..Effect::found(Found::Many(found))
        })
    }

    fn prints(
        &self,
        output: &mut Bytes,
        parts: &[PrintPart],
        args: &[Value],
    ) -> Result<Effect, Stop>
        ensures { (shelves : List Shelf)
            → IsAnswered (machine_with self.now shelves output.old) self.now.processor (runner_of self.now.live.now)
            (asks.Prints (map part_of parts.now) (map value_of args.now)) result shelves output.new }
    {
        print(self.alloc, output, parts, args)?;
        Ok(Effect::found(Found::Nothing))
    }

    /// Whether so many threads more may be made on a processor.
    fn threads_room(&self, processor: u32, count: usize) -> Result<(), FaultKind>
        ensures { IsMet (needs.room (made_in self.now.table.now processor) count most_threads FaultKind.ThreadsFull) result }
    {
        met(
            self.table.has_room(processor, count),
            FaultKind::ThreadsFull,
        )
    }

    /// Whether so many cells more may be made on the thread's processor.
    fn slots_room(&self, objects: &Objects, count: u64) -> Result<(), FaultKind>
        ensures { IsMet (needs.room (slots_in objects.now self.now.processor) count most_slots FaultKind.StoreFull) result }
    {
        met(
            has_slots(objects, self.processor, count),
            FaultKind::StoreFull,
        )
    }

    /// The number of values that a function takes.
    fn arity(&self, number: u32) -> u64
        ensures { result ≡ classes.arity (function_shape (shapes_of self.now) number).params }
    {
        match function_of(self.code, number) {
            Some(shape) => shape.arity() as u64,
            None => 0,
        }
    }

    /// The number of cells of an object of a class.
    fn size(&self, number: u32) -> u64
        ensures { result ≡ classes.size (class_shape (shapes_of self.now) number).cells }
    {
        match class(self.code, number) {
            Some(shape) => shape.size(),
            None => 0,
        }
    }

    /// The cells of a new object of a class.
    fn construct(&self, number: u32, args: &[Value]) -> Result<List<Cell>, BuildError>
        ensures { IsBuilt result (classes.construct same_address (class_shape (shapes_of self.now) number) (map value_of args.now)) }
    {
        match class(self.code, number) {
            Some(shape) => shape.construct(self.alloc, args),
            None => Ok(List::new(self.alloc)),
        }
    }
}

/// New cells of a kind, so many.
#[tactic(auto, using(crate::proofs::LoopLaws::same_cells))]
fn fresh_cells(alloc: Global, kind: Kind, count: u32) -> Result<List<Cell>, AllocError>
    ensures { IfOk result (λ cells. map cell_of cells ≡ replicate count (values.fresh kind)) }
{
    let cells = vec![in alloc; Cell::fresh(kind); count as usize]?;
    Ok(List::from_vec(cells))
}

/// A need that is met, or the fault.
fn met(holds: bool, fault: FaultKind) -> Result<(), FaultKind>
    ensures { IsMet (if holds then needs.Go [] else needs.Bad fault) result }
{
    if holds {
        return Ok(());
    }
    Err(fault)
}

/// Void is a call without an object.
fn object_there(this: Value) -> Result<(), FaultKind>
    ensures { IsMet (needs.object_there (value_of this)) result }
{
    match this {
        Value::Void | Value::Ptr(_) => Ok(()),
        Value::Int(_) | Value::Null => Err(FaultKind::NullPointer),
    }
}

/// The processor of the object that a pointer leads to, and the first one where it leads to none.
fn home_of(pointer: Value) -> u32
    ensures { result ≡ home_in (value_of pointer) }
{
    match pointer {
        Value::Ptr(at) => at.processor,
        _ => 0,
    }
}
