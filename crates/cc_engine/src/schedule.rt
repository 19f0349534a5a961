use crate::order::{Order, Turn};
use cc_walk::{Awaited, News, ThreadNo};
use std::alloc::{AllocError, Global};
use std::collections::HashMap;

/// Whose turn it is: the threads that may move, and those that wait, by what they wait for.
///
/// It tells which thread is stepped next, so that no step costs time in the number of threads. What a thread does, and whether any can
/// move, the walk decides; nothing that is promised of a run rests on a schedule.
#[derive(Drop)]
pub(crate) struct Schedule {
    alloc: Global,
    order: Order,
    turn: Option<Turn>,
    waiting: HashMap<Awaited, Vec<ThreadNo>>,
}

impl Schedule {
    /// The schedule of one thread.
    pub fn new(alloc: Global, seed: u64, first: ThreadNo) -> Result<Schedule, AllocError> {
        let mut order = Order::new(alloc, seed);
        order.push(first)?;
        Ok(Schedule {
            alloc,
            order,
            turn: None,
            waiting: HashMap::new(alloc),
        })
    }

    /// The thread that is to move. `None` where none is known that may.
    pub fn pick(&mut self) -> Result<Option<ThreadNo>, AllocError> {
        let Some(turn) = &mut self.turn else {
            self.turn = self.order.next();
            return Ok(self.begin());
        };
        if turn.steps > 0 {
            return Ok(self.begin());
        }
        self.order.push(turn.thread)?;
        self.turn = self.order.next();
        Ok(self.begin())
    }

    /// The thread whose turn it is, for one step.
    fn begin(&mut self) -> Option<ThreadNo> {
        let turn = self.turn.as_mut()?;
        turn.steps = turn.steps.saturating_sub(1);
        Some(turn.thread)
    }

    /// The thread whose turn it is waits, and its turn is over.
    pub fn wait(&mut self, thread: ThreadNo, awaited: Option<Awaited>) -> Result<(), AllocError> {
        self.turn = None;
        let Some(awaited) = awaited else {
            return Ok(());
        };
        if let Some(threads) = self.waiting.get_mut(&awaited) {
            threads.push(thread)?;
            return Ok(());
        }
        let mut threads = Vec::new(self.alloc);
        threads.push(thread)?;
        self.waiting.insert(awaited, threads)?;
        Ok(())
    }

    /// The thread whose turn it is has ended.
    pub fn end(&mut self, thread: ThreadNo) -> Result<(), AllocError> {
        self.turn = None;
        self.wake(thread.into())
    }

    /// Those that wait for this may move again, in the order in which they came.
    fn wake(&mut self, awaited: Awaited) -> Result<(), AllocError> {
        if self.waiting.is_empty() {
            return Ok(());
        }
        let Some(threads) = self.waiting.remove(&awaited) else {
            return Ok(());
        };
        for thread in threads {
            self.order.push(thread)?;
        }
        Ok(())
    }

    /// Takes up what a step has changed: new threads may move, and those that have waited for what was done.
    pub fn note(&mut self, news: News) -> Result<(), AllocError> {
        let News { first, made, done } = news;
        for place in 0..made {
            self.order.push(ThreadNo {
                processor: first.processor,
                thread: first.thread.saturating_add(place),
            })?;
        }
        match done {
            Some(done) => self.wake(done),
            None => Ok(()),
        }
    }
}
