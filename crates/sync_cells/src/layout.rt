ghost use Rattle.std.specs.Prelude.{◌≡◌, ◌+◌, ◌<◌, ◌≤◌, IfOk, IfErr, vec_len, vec_capacity};
ghost use Rattle.sync_cells.specs.Layout.{place_of};

use crate::cell::StoreFault;
use global_ptr::Spot;

/// The most slots that one processor makes.
pub const MOST_SLOTS: u32 = 1_048_576;

/// Where the cells of an object stand among all cells.
#[derive(Clone, Copy, Debug)]
pub struct Extent {
    /// The place of the first one.
    pub start: u32,
    /// How many they are.
    pub count: u32,
}

/// The place among all cells of the cell at a spot. `None` comes exactly where there is no such cell.
pub fn find(objects: &[Extent], at: Spot) -> Option<usize>
    ensures { result ≡ place_of objects.now at }
{
    let object = objects.get(at.object as usize)?;
    (at.offset < object.count).then(|| object.start as usize + at.offset as usize)
}

/// Keeps room for one more object behind `made` slots, and tells where its cells will stand. No object is added yet.
///
/// `Full` comes exactly where the slots would be more than [`MOST_SLOTS`].
pub fn prepare(objects: &mut Vec<Extent>, made: usize, asked: u32) -> Result<Extent, StoreFault>
    requires { made ≤ MOST_SLOTS }
    ensures objects { objects.new.items ≡ objects.old.items }
    ensures full { MOST_SLOTS < made + asked → result ≡ Err (StoreFault.Full made asked) }
    ensures memory { made + asked ≤ MOST_SLOTS → IfErr result (λ fault. fault ≡ StoreFault.Memory) }
    ensures extent { IfOk result (λ extent. extent ≡ record { start = made; count = asked }) }
    ensures fits { IfOk result (λ _. made + asked ≤ MOST_SLOTS) }
    ensures room { IfOk result (λ _. vec_len objects.new < vec_capacity objects.new) }
{
    let made = made as u32;
    if asked > MOST_SLOTS - made {
        return Err(StoreFault::Full { made, asked });
    }
    objects.reserve(1)?;
    Ok(Extent {
        start: made,
        count: asked,
    })
}
