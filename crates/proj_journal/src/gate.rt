// What stands at the place of a gate.
ghost use Rattle.std.specs.Prelude.{◌≡◌, ◌<◌, ◌≤◌, ◌+◌, ◌↔◌, List, ℕ, length, take, IsTrue};
ghost use Rattle.git_objects.specs.declared.limits.TheConstants.{ITEM_BYTES, ITEMS};
ghost use Rattle.proj_journal.specs.Gates.{IsGate, MayBeOpen};

use git_objects::limits::{ITEM_BYTES, ITEMS};

// What stands at the place of a gate: one that ends the list, one before an item of a size, or nothing that may stand
// there.
#[derive(Clone, Copy, Debug, PartialEq, Eq)]
pub(crate) enum Gate {
    Shut,
    Open(u32),
    Broken,
}

// Tells by the first five bytes there, by the number of records before and by the number of bytes from there on.
pub(crate) fn read_gate(head: &[u8], number: usize, room: u64) -> Gate
    ensures told { (rest : List ℕ) → head.now ≡ take 5 rest → room ≡ length rest →
        IsGate number rest result }
    ensures bounds { MayBeOpen number room result }
{
    if head.is_empty() {
        return Gate::Broken;
    }
    if head[0] != 1 {
        return Gate::Shut;
    }
    if head.len() < 5 {
        return Gate::Broken;
    }
    let size = u32::from_be_bytes([head[1], head[2], head[3], head[4]]);
    if !may_stand(number, size, room) {
        return Gate::Broken;
    }
    Gate::Open(size)
}

// Whether a record of this size may stand there.
fn may_stand(number: usize, size: u32, room: u64) -> bool
    ensures { IsTrue result ↔ ((number < ITEMS) × (0 < size) × (size ≤ ITEM_BYTES) × (5 + size ≤ room)) }
{
    number < ITEMS as usize && 0 < size && size as usize <= ITEM_BYTES && size as u64 + 5 <= room
}
