use cc_walk::{ThreadNo, Walk};
use rand_core::{Rng, SeedableRng};
use rand_xoshiro::SplitMix64;
use std::alloc::AllocError;

/// The order in which threads are stepped: each time, one of those that can move.
#[derive(Drop)]
pub(crate) enum Order {
    /// The first one, by processor and number.
    First,
    /// The last one.
    Last,
    /// One that is drawn.
    Drawn(SplitMix64),
}

impl Order {
    /// The order of a word: `first`, `last` or the seed of a generator.
    pub fn of(word: &str) -> Option<Order> {
        match word {
            "first" => Some(Order::First),
            "last" => Some(Order::Last),
            seed => {
                let seed = seed.parse::<u64>().ok()?;
                Some(Order::Drawn(SplitMix64::seed_from_u64(seed)))
            }
        }
    }

    /// The thread that is stepped next, and `None` where no thread can move.
    pub fn pick(&mut self, walk: &Walk) -> Result<Option<ThreadNo>, AllocError> {
        match self {
            Order::First => Ok(walk.enabled()),
            Order::Last => {
                let threads = walk.all_enabled()?;
                Ok(threads.as_slice().last().copied())
            }
            Order::Drawn(generator) => {
                let threads = walk.all_enabled()?;
                let count = threads.len() as u64;
                if count == 0 {
                    return Ok(None);
                }
                let place = generator.next_u64() % count;
                Ok(threads.get(place as usize).copied())
            }
        }
    }
}
