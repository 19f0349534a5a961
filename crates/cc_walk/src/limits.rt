ghost use Rattle.std.specs.Prelude.{◌≡◌, ◌+◌, nat_le};
ghost use Rattle.cc_core.specs.Needs.{most_slots};
ghost use Rattle.cc_ops.specs.Shelves.{slots_in};

use walk_objects::Objects;

/// How many processors a run may have.
pub(crate) const MOST_PROCESSORS: usize = 64;

/// How many threads may be made on one processor.
pub(crate) const MOST_THREADS: usize = 1_048_576;

/// How many cells may be made on one processor.
pub(crate) const MOST_SLOTS: u64 = 1_048_576;

/// How many functions a thread may be inside.
pub(crate) const MOST_CALLS: usize = 4096;

/// Whether so many cells more may be made on a processor.
pub(crate) fn has_slots(objects: &Objects, processor: u32, count: u64) -> bool
    ensures { result ≡ nat_le (slots_in objects.now processor + count) most_slots }
{
    match MOST_SLOTS.checked_sub(u64::from(objects.slots(processor))) {
        Some(room) => count <= room,
        None => false,
    }
}
