ghost use Rattle.std.specs.Prelude.{◌≡◌, ◌≢◌, ◌⊎◌, ◌≤◌, ℕ, Option, IfOk, OnOk};
ghost use Rattle.ccpp_edge.specs.declared.shelf.ShelfFault.TheVariants.{Memory as TheMemory};
ghost use Rattle.ccpp_edge.specs.Count.{Rose};
ghost use Rattle.ccpp_edge.specs.Shelf.{Files, HoldsIfTold, Lacks, SameButFor};

use crate::Bytes;
use std::alloc::AllocError;

/// Why a shelf did not do what was asked.
#[derive(Clone, Copy, Debug, PartialEq, Eq)]
pub enum ShelfFault {
    /// There is no file of that name.
    Absent,
    /// The shelf failed.
    Failed,
    /// Want of memory.
    Memory,
}

impl From<AllocError> for ShelfFault {
    ghost from_gives = { λ _ fault. fault ≡ TheMemory };

    fn from(_: AllocError) -> Self {
        ShelfFault::Memory
    }
}

/// Named files, which are read and written as a whole. This project's own.
pub trait Shelf {
    /// The bytes that are held under each name, where the shelf tells them.
    ghost held: { Self → Option Files };

    /// How often the shelf has failed. The count never falls.
    ghost faults: { Self → ℕ };

    /// The bytes that are held under a name. Nothing held is changed, whatever is answered.
    fn read(&mut self, name: &str) -> Result<Bytes, ShelfFault>
        ensures bytes { IfOk result (HoldsIfTold (held self.old) name.now) }
        ensures held { held self.new ≡ held self.old }
        ensures absent { result ≡ Err ShelfFault.Absent → Lacks (held self.old) name.now ⊎ Rose (faults self.old) (faults self.new) }
        ensures failed { result ≡ Err ShelfFault.Failed → Rose (faults self.old) (faults self.new) }
        ensures faults { faults self.old ≤ faults self.new };

    /// Replaces the bytes of a name, which need not be there yet, and of no other. Where the shelf failed, it is not known what
    /// the name holds. Want of memory leaves all as it was.
    fn write(&mut self, name: &str, bytes: &[u8]) -> Result<(), ShelfFault>
        ensures bytes { OnOk result (HoldsIfTold (held self.new) name.now bytes.now) }
        ensures others { SameButFor (held self.old) (held self.new) name.now }
        ensures memory { result ≡ Err ShelfFault.Memory → held self.new ≡ held self.old }
        ensures failed { result ≡ Err ShelfFault.Failed → Rose (faults self.old) (faults self.new) }
        ensures never_absent { result ≢ Err ShelfFault.Absent }
        ensures faults { faults self.old ≤ faults self.new };
}
