use cc_walk::ThreadNo;
use rand_core::{Rng, SeedableRng};
use rand_xoshiro::SplitMix64;
use std::alloc::{AllocError, Global};
use std::collections::VecDeque;

/// How many steps a thread makes at most before others have their turn.
const SLICE: u32 = 16;

/// The turn of a thread.
#[derive(Clone, Copy, Debug)]
pub(crate) struct Turn {
    pub thread: ThreadNo,
    /// How many steps it may make yet.
    pub steps: u32,
}

/// The threads that may move, in an order.
#[derive(Drop)]
pub(crate) enum Order {
    /// One after another, each for a slice of 16 steps.
    InTurn(VecDeque<ThreadNo>),
    /// One that is drawn, for a slice that is drawn.
    Drawn(Vec<ThreadNo>, SplitMix64),
}

impl Order {
    /// No thread yet. With the seed 0 threads have their turns one after another; else a generator begins with the seed.
    pub fn new(alloc: Global, seed: u64) -> Order {
        if seed == 0 {
            return Order::InTurn(VecDeque::new(alloc));
        }
        Order::Drawn(Vec::new(alloc), SplitMix64::seed_from_u64(seed))
    }

    /// Puts a thread behind the others.
    pub fn push(&mut self, thread: ThreadNo) -> Result<(), AllocError> {
        match self {
            Order::InTurn(threads) => threads.push_back(thread)?,
            Order::Drawn(threads, _) => threads.push(thread)?,
        }
        Ok(())
    }

    /// Takes out the thread whose turn is next.
    pub fn next(&mut self) -> Option<Turn> {
        match self {
            Order::InTurn(threads) => {
                let thread = threads.pop_front()?;
                Some(Turn {
                    thread,
                    steps: SLICE,
                })
            }
            Order::Drawn(threads, generator) => {
                let count = threads.len() as u64;
                if count == 0 {
                    return None;
                }
                let word = generator.next_u64();
                let thread = threads.swap_remove((word % count) as usize);
                let steps = 1 + ((word >> 32) % u64::from(SLICE)) as u32;
                Some(Turn { thread, steps })
            }
        }
    }
}
