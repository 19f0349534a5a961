ghost use Rattle.std.specs.Prelude.{◌≡◌, ◌≤◌, ℕ, List, Option, OnOk};
ghost use Rattle.ccpp_edge.specs.declared.sink.SinkFault.TheVariants.{Memory as TheMemory};
ghost use Rattle.ccpp_edge.specs.Count.{Rose};
ghost use Rattle.ccpp_edge.specs.Sink.{Appends, AppendsFront};

use std::alloc::AllocError;

/// Why a sink did not take all bytes.
#[derive(Clone, Copy, Debug, PartialEq, Eq)]
pub enum SinkFault {
    /// The sink failed.
    Failed,
    /// Want of memory.
    Memory,
}

impl From<AllocError> for SinkFault {
    ghost from_gives = { λ _ fault. fault ≡ TheMemory };

    fn from(_: AllocError) -> Self {
        SinkFault::Memory
    }
}

/// What the program's text goes to. This project's own.
pub trait Sink {
    /// The bytes that were written, where the sink tells them.
    ghost written: { Self → Option (List ℕ) };

    /// How often the sink has failed. The count never falls.
    ghost faults: { Self → ℕ };

    /// Appends the bytes. Where the sink failed, a front of them was appended. Want of memory appends nothing.
    fn write_all(&mut self, bytes: &[u8]) -> Result<(), SinkFault>
        ensures ok { OnOk result (Appends (written self.old) (written self.new) bytes.now) }
        ensures front { result ≡ Err SinkFault.Failed → AppendsFront (written self.old) (written self.new) bytes.now }
        ensures failed { result ≡ Err SinkFault.Failed → Rose (faults self.old) (faults self.new) }
        ensures memory { result ≡ Err SinkFault.Memory → written self.new ≡ written self.old }
        ensures faults { faults self.old ≤ faults self.new };
}
