//! When each entry of a journal has its time: as early as what it waits for allows.
//!
//! A step takes one unit of time, and a message takes none. A processor does what it does in the order of the journal, one thing at a time. A
//! request is served once it is posted, which is where its thread has made its last step before. A thread goes on once its request is served;
//! and after a call, once the other processor has done all that stands before in the journal, for in that the call has ended.

use effect_journal::Entry;
use rsr_message::{Body, MessageFault, decode};
use std::alloc::{AllocError, Global};
use std::collections::BTreeMap;

/// A thread, by its processor and its number there.
#[derive(Clone, Copy, Debug, PartialEq, Eq, PartialOrd, Ord)]
pub(crate) struct ThreadName {
    pub processor: u32,
    pub thread: u32,
}

/// What a request asks for.
#[derive(Clone, Copy, Debug, PartialEq, Eq)]
pub(crate) enum Kind {
    Call,
    Cast,
    Get,
    Put,
    Make,
}

/// A request: which thread posted it, and when.
#[derive(Clone, Copy, Debug)]
pub(crate) struct Posted {
    pub kind: Kind,
    pub by: ThreadName,
    pub at: u64,
}

/// What is drawn.
#[derive(Clone, Copy, Debug)]
pub(crate) enum Deed {
    /// A thread makes steps.
    Slice(ThreadName),
    /// A thread waits for what it asked for.
    Wait(ThreadName),
    /// A processor makes the step of a request. The request is not there where the bytes are none.
    Serve(u32, Option<Posted>),
    /// A processor is made.
    Make(u32, Option<Posted>),
    /// The run ends at a fault, which would be the next step of this thread.
    Fault(ThreadName),
}

/// A deed, and its time in steps. `entry` is the number of its entry in the journal, from 0.
#[derive(Clone, Copy, Debug)]
pub(crate) struct Mark {
    pub deed: Deed,
    pub entry: u64,
    pub start: u64,
    pub end: u64,
}

/// Until when a thread is busy, and what it waits for from then on.
#[derive(Clone, Copy, Debug)]
struct Busy {
    until: u64,
    asked_at: Option<u64>,
    called: Option<u32>,
}

/// The marks of a run, and the times that have been reached.
#[derive(Drop)]
pub(crate) struct Timeline {
    pub marks: Vec<Mark>,
    /// How many steps the entries have, and how many units of time they take.
    pub steps: u64,
    pub end: u64,
    processors: BTreeMap<u32, u64>,
    threads: BTreeMap<ThreadName, Busy>,
    made: u32,
    entry: u64,
}

impl Timeline {
    /// The marks of some entries, in order.
    pub(crate) fn of(alloc: Global, entries: &[Entry]) -> Result<Timeline, AllocError> {
        let mut line = Timeline {
            marks: Vec::new(alloc),
            steps: 0,
            end: 0,
            processors: BTreeMap::new(alloc),
            threads: BTreeMap::new(alloc),
            made: 0,
            entry: 0,
        };
        for entry in entries {
            line.add(alloc, entry)?;
            line.entry = line.entry.saturating_add(1);
        }
        Ok(line)
    }

    fn add(&mut self, alloc: Global, entry: &Entry) -> Result<(), AllocError> {
        match entry {
            Entry::Run {
                processor,
                thread,
                steps,
            } => {
                let thread = ThreadName {
                    processor: *processor,
                    thread: *thread,
                };
                self.run(thread, *steps)
            }
            Entry::Serve { processor, request } => {
                let posted = self.posted(alloc, request.as_slice())?;
                self.serve(*processor, posted)
            }
            Entry::Make { request } => {
                let posted = self.posted(alloc, request.as_slice())?;
                self.make(posted)
            }
            Entry::End { by, .. } => match by {
                Some(by) => self.fault(ThreadName {
                    processor: by.processor,
                    thread: by.thread,
                }),
                None => Ok(()),
            },
        }
    }

    /// Until when a processor is busy.
    fn free_at(&self, processor: u32) -> u64 {
        self.processors.get(&processor).copied().unwrap_or(0)
    }

    fn busy(&self, thread: ThreadName) -> Busy {
        self.threads.get(&thread).copied().unwrap_or(Busy {
            until: 0,
            asked_at: None,
            called: None,
        })
    }

    /// When a thread can make its next step.
    fn ready_at(&self, thread: ThreadName) -> u64 {
        let busy = self.busy(thread);
        let ready = self.free_at(thread.processor).max(busy.until);
        match busy.called {
            Some(processor) => ready.max(self.free_at(processor)),
            None => ready,
        }
    }

    fn push(&mut self, deed: Deed, start: u64, end: u64) -> Result<(), AllocError> {
        self.end = self.end.max(end);
        self.marks.push(Mark {
            deed,
            entry: self.entry,
            start,
            end,
        })?;
        Ok(())
    }

    fn run(&mut self, thread: ThreadName, steps: u64) -> Result<(), AllocError> {
        let start = self.ready_at(thread);
        let end = start.saturating_add(steps);
        if let Some(asked_at) = self.busy(thread).asked_at {
            self.push(Deed::Wait(thread), asked_at, start)?;
        }
        self.push(Deed::Slice(thread), start, end)?;
        self.steps = self.steps.saturating_add(steps);
        self.processors.insert(thread.processor, end)?;
        let busy = Busy {
            until: end,
            asked_at: None,
            called: None,
        };
        self.threads.insert(thread, busy)?;
        Ok(())
    }

    /// The request that these bytes are, if they are one.
    fn posted(&self, alloc: Global, bytes: &[u8]) -> Result<Option<Posted>, AllocError> {
        let request = match decode(alloc, bytes) {
            Ok((request, len)) if len == bytes.len() => request,
            Err(MessageFault::Memory) => return Err(AllocError),
            _ => return Ok(None),
        };
        let kind = match request.body {
            Body::Call { .. } => Kind::Call,
            Body::Cast { .. } => Kind::Cast,
            Body::Get { .. } => Kind::Get,
            Body::Put { .. } => Kind::Put,
            Body::Make { .. } => Kind::Make,
            Body::Reply { .. } => return Ok(None),
        };
        let by = ThreadName {
            processor: request.from,
            thread: request.ticket,
        };
        let at = self.busy(by).until;
        Ok(Some(Posted { kind, by, at }))
    }

    fn serve(&mut self, processor: u32, posted: Option<Posted>) -> Result<(), AllocError> {
        let mut start = self.free_at(processor);
        if let Some(posted) = posted {
            start = start.max(posted.at);
        }
        let end = start.saturating_add(1);
        self.push(Deed::Serve(processor, posted), start, end)?;
        self.steps = self.steps.saturating_add(1);
        self.processors.insert(processor, end)?;
        self.answer(processor, posted, end)
    }

    fn make(&mut self, posted: Option<Posted>) -> Result<(), AllocError> {
        self.made = self.made.saturating_add(1);
        let made = self.made;
        let start = match posted {
            Some(posted) => posted.at,
            None => self.end,
        };
        let end = start.saturating_add(1);
        self.push(Deed::Make(made, posted), start, end)?;
        self.steps = self.steps.saturating_add(1);
        self.processors.insert(made, end)?;
        self.answer(made, posted, end)
    }

    /// Lets the thread that asked know that its request has been served.
    fn answer(
        &mut self,
        processor: u32,
        posted: Option<Posted>,
        end: u64,
    ) -> Result<(), AllocError> {
        let Some(posted) = posted else {
            return Ok(());
        };
        let busy = Busy {
            until: end,
            asked_at: Some(posted.at),
            called: match posted.kind {
                Kind::Call => Some(processor),
                _ => None,
            },
        };
        self.threads.insert(posted.by, busy)?;
        Ok(())
    }

    fn fault(&mut self, thread: ThreadName) -> Result<(), AllocError> {
        let at = self.ready_at(thread);
        self.push(Deed::Fault(thread), at, at)
    }
}
