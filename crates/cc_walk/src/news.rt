use cc_ops::ThreadNo;
use code_thread::Ask;
use global_ptr::Value;

/// What a thread waits for.
#[derive(Clone, Copy, Debug, PartialEq, Eq, Hash)]
pub enum Awaited {
    /// A value in a cell.
    Cell {
        /// The number of its processor.
        processor: u32,
        /// The number of its object there.
        object: u32,
        /// Its place in the object.
        offset: u32,
    },
    /// That nobody is inside an atomic function of an object.
    Object {
        /// The number of its processor.
        processor: u32,
        /// Its own number there.
        object: u32,
    },
    /// That a thread ends.
    Thread {
        /// The number of its processor.
        processor: u32,
        /// Its own number there.
        thread: u32,
    },
}

impl Awaited {
    /// The cell that a pointer leads to.
    pub(crate) fn cell(pointer: Value) -> Option<Awaited> {
        let Value::Ptr(at) = pointer else {
            return None;
        };
        Some(Awaited::Cell {
            processor: at.processor,
            object: at.object,
            offset: at.offset,
        })
    }

    /// The object that a pointer leads to.
    pub(crate) fn object(pointer: Value) -> Option<Awaited> {
        let Value::Ptr(at) = pointer else {
            return None;
        };
        Some(Awaited::Object {
            processor: at.processor,
            object: at.object,
        })
    }
}

impl From<ThreadNo> for Awaited {
    fn from(t: ThreadNo) -> Awaited {
        Awaited::Thread {
            processor: t.processor,
            thread: t.thread,
        }
    }
}

/// What a step has changed for other threads. It tells whom to step next; no contract speaks of it, and none rests on it.
#[derive(Clone, Copy, Debug)]
pub struct News {
    /// The first of the threads that it made, which have one number after another.
    pub first: ThreadNo,
    /// How many threads it made.
    pub made: u32,
    /// What others may have waited for until then: the cell that it wrote, or the object of the function that it left.
    pub done: Option<Awaited>,
}

impl News {
    /// Nothing new.
    pub(crate) fn none() -> News {
        News {
            first: ThreadNo {
                processor: 0,
                thread: 0,
            },
            made: 0,
            done: None,
        }
    }

    /// What the answer to an ask may end the waiting for. A thread that leaves a function leaves this object.
    pub(crate) fn of(ask: &Ask, left: Option<Value>) -> News {
        let done = match *ask {
            Ask::Writes(_, place, _) => Awaited::cell(place),
            Ask::Leaves => left.and_then(Awaited::object),
            _ => None,
        };
        News {
            done,
            ..News::none()
        }
    }
}
