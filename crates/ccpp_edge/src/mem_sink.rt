ghost use Rattle.std.specs.Prelude.{◌≡◌, ◌++◌, ◌↔◌, [], Some, IsTrue, OnOk, OnErr};

use crate::calls::Calls;
use crate::{Bytes, List, Sink, SinkFault};
use std::alloc::Global;
use std::marker::Model;

/// A sink in memory, of whose calls some are to fail. It is for tests. This project's own.
#[derive(Debug, Drop)]
pub struct MemSink {
    bytes: Bytes,
    calls: Calls,
}

impl Model for MemSink {
    ghost use Rattle.ccpp_edge.specs.Fake.{FakeSink};

    ghost Value = { FakeSink };

    ghost view = { λ sink. record { written = sink.bytes; calls = sink.calls } };
}

impl MemSink {
    /// A sink to which nothing was written. Of its calls, counted from 0, exactly those with a number in `failing` fail.
    pub fn new(alloc: Global, failing: List<u64>) -> MemSink
        ensures { result ≡ record { written = []; calls = record { failing = failing; made = 0; faults = 0 } } }
    {
        MemSink {
            bytes: Bytes::new(alloc),
            calls: Calls::new(failing),
        }
    }

    /// What was written.
    pub fn bytes(&self) -> &[u8]
        ensures { result.now ≡ self.now.written }
    {
        self.bytes.as_slice()
    }
}

impl Sink for MemSink {
    ghost use Rattle.ccpp_edge.specs.Fake.{next_fails, counted};

    ghost written = { λ sink. Some sink.written };

    ghost faults = { λ sink. sink.calls.faults };

    /// A call that fails appends nothing.
    fn write_all(&mut self, bytes: &[u8]) -> Result<(), SinkFault>
        ensures ok { OnOk result (self.new.written ≡ self.old.written ++ bytes.now) }
        ensures refused { OnErr result (self.new.written ≡ self.old.written) }
        ensures failed { (result ≡ Err SinkFault.Failed) ↔ IsTrue (next_fails self.old.calls) }
        ensures calls { self.new.calls ≡ counted self.old.calls }
    {
        if self.calls.next_fails() {
            return Err(SinkFault::Failed);
        }
        Ok(self.bytes.extend_from_slice(bytes)?)
    }
}
