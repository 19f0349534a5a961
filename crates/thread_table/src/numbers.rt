ghost use Rattle.std.specs.Prelude.{◌≡◌, ◌≤◌, ◌<◌, ◌^◌, ◌++◌, ◌∷◌, [], Some, None, length, count_by, is_some, slice_set, IsSome, OnOk};
ghost use Rattle.std.specs.Borrow.{sem};
ghost use Rattle.std.specs.Option.{option_copied};
ghost use Rattle.thread_table.specs.Numbers.{thread_at};

use crate::thread::Thread;
use slab::Slab;
use std::alloc::{AllocError, Global};
use std::marker::Model;

/// The key of a thread that has ended.
const GONE: u32 = u32::MAX;

/// Threads under numbers that are given in the order made. An ended thread's number costs four bytes.
#[derive(Debug, Drop)]
pub(crate) struct Numbered {
    keys: Vec<u32>,
    live: Slab<Thread>,
}

impl Model for Numbered {
    ghost use Rattle.std.specs.Prelude.{vec_len, vec_capacity};
    ghost use Rattle.thread_table.specs.Numbers.{Numbers, shown, room_for, IsKept};

    ghost Value = { Numbers };

    ghost view = { λ s. record {
      threads = shown s.keys.items s.live;
      room = room_for (vec_len s.keys) (vec_capacity s.keys) s.live;
    } };

    ghost invariant = { λ s. IsKept s.keys.items s.live };
}

impl Numbered {
    ghost use Rattle.thread_table.specs.Lends.{LendsThread};

    /// No thread was made. It takes no memory.
    pub fn new(alloc: Global) -> Numbered
        ensures { result.threads ≡ [] }
    {
        Numbered {
            keys: Vec::new(alloc),
            live: Slab::new(alloc),
        }
    }

    /// How many threads were made.
    pub fn made(&self) -> usize
        ensures { result ≡ length self.now.threads }
    {
        self.keys.len()
    }

    /// How many threads live.
    pub fn live(&self) -> usize
        ensures { result ≡ count_by is_some self.now.threads }
    {
        self.live.len()
    }

    /// The live thread of this number.
    pub fn get(&self, number: u32) -> Option<&Thread>
        ensures { option_copied result ≡ thread_at self.now.threads number }
    {
        let key = *self.keys.get(number as usize)?;
        self.live.get(key as usize)
    }

    /// The live thread of this number, to be changed.
    pub fn get_mut(&mut self, number: u32) -> &mut Thread
        requires { IsSome (thread_at self.old.threads number) }
        ensures* lends { sem 𝓛 (LendsThread self.entry number result) }
        ensures value { thread_at self.old.threads number ≡ Some result.now }
    {
        let key = self.keys[number as usize];
        &mut self.live[key as usize]
    }

    /// Takes the memory for one more thread.
    pub fn reserve(&mut self) -> Result<(), AllocError>
        ensures threads { self.new.threads ≡ self.old.threads }
        ensures room { OnOk result (1 ≤ self.new.room) }
    {
        self.keys.reserve(1)?;
        self.live.reserve(1)?;
        if self.live.vacant_key() >= GONE as usize {
            return Err(AllocError);
        }
        Ok(())
    }

    /// Gives a thread the next number, with memory that was taken before.
    pub fn insert(&mut self, thread: Thread) -> u32
        requires room { 1 ≤ self.old.room }
        requires few { length self.old.threads < 2 ^ 32 }
        ensures number { result ≡ length self.old.threads }
        ensures threads { self.new.threads ≡ self.old.threads ++ Some thread ∷ [] }
    {
        let number = self.keys.len() as u32;
        let key = self.live.insert_reserved(thread);
        self.keys.push_reserved(key as u32);
        number
    }

    /// Takes out a live thread, which has ended.
    pub fn remove(&mut self, number: u32) -> Thread
        requires { IsSome (thread_at self.old.threads number) }
        ensures thread { thread_at self.old.threads number ≡ Some result }
        ensures threads { self.new.threads ≡ slice_set self.old.threads number None }
    {
        let key = self.keys[number as usize];
        self.keys[number as usize] = GONE;
        self.live.remove(key as usize)
    }
}
