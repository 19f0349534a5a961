//! Which lanes a picture has, and where: one for each processor, and below it one for each of its threads.

use crate::timeline::{Deed, Mark, ThreadName};
use std::alloc::{AllocError, Global};

/// Where the first lane begins, from the top, in pixels.
pub(crate) const TOP: u64 = 72;

/// The height of a lane.
pub(crate) const HEIGHT: u64 = 16;

/// What is left free between processors.
pub(crate) const GAP: u64 = 8;

/// The lanes of a picture.
#[derive(Drop)]
pub(crate) struct Lanes {
    /// The processors and the threads that the marks name, each once and in rising order.
    pub processors: Vec<u32>,
    pub threads: Vec<ThreadName>,
}

impl Lanes {
    /// The lanes that some marks need.
    pub(crate) fn of(alloc: Global, marks: &[Mark]) -> Result<Lanes, AllocError> {
        let mut lanes = Lanes {
            processors: Vec::new(alloc),
            threads: Vec::new(alloc),
        };
        lanes.processors.push(0)?;
        for mark in marks {
            lanes.add(mark.deed)?;
        }
        lanes.processors.sort()?;
        lanes.processors.dedup();
        lanes.threads.sort()?;
        lanes.threads.dedup();
        Ok(lanes)
    }

    fn add(&mut self, deed: Deed) -> Result<(), AllocError> {
        let thread = match deed {
            Deed::Slice(thread) | Deed::Wait(thread) | Deed::Fault(thread) => Some(thread),
            Deed::Serve(processor, posted) | Deed::Make(processor, posted) => {
                self.processors.push(processor)?;
                posted.map(|posted| posted.by)
            }
        };
        if let Some(thread) = thread {
            self.processors.push(thread.processor)?;
            self.threads.push(thread)?;
        }
        Ok(())
    }

    /// How many threads come before this one, by processor and number.
    fn threads_before(&self, thread: ThreadName) -> usize {
        match self.threads.as_slice().binary_search(&thread) {
            Ok(at) => at,
            Err(at) => at,
        }
    }

    /// How many processors come before this one.
    pub(crate) fn processors_before(&self, processor: u32) -> usize {
        match self.processors.as_slice().binary_search(&processor) {
            Ok(at) => at,
            Err(at) => at,
        }
    }

    /// Where the lane of a processor begins, in pixels from the top.
    pub(crate) fn processor_top(&self, processor: u32) -> u64 {
        let first = ThreadName {
            processor,
            thread: 0,
        };
        let above = self.processors_before(processor);
        top(above, above.saturating_add(self.threads_before(first)))
    }

    /// Where the lane of a thread begins, in pixels from the top.
    pub(crate) fn thread_top(&self, thread: ThreadName) -> u64 {
        let above = self.processors_before(thread.processor);
        let lanes = above
            .saturating_add(1)
            .saturating_add(self.threads_before(thread));
        top(above, lanes)
    }

    /// Where the lanes end.
    pub(crate) fn bottom(&self) -> u64 {
        let processors = self.processors.len();
        top(processors, processors.saturating_add(self.threads.len()))
    }
}

/// Where a lane begins that has so many processors and lanes above it.
fn top(processors: usize, lanes: usize) -> u64 {
    let lanes = (lanes as u64).saturating_mul(HEIGHT);
    let gaps = (processors as u64).saturating_mul(GAP);
    TOP.saturating_add(lanes).saturating_add(gaps)
}
