// Reading where the items of a journal stand.
ghost use Rattle.std.specs.Prelude.{◌≡◌, ◌<◌, ◌≤◌, ◌+◌, ◌*◌, ℕ, length, [], ◌-◌, take};
ghost use Rattle.std.specs.Prelude.{◌↔◌, IsTrue, OnOk, Err};
ghost use Rattle.std.specs.Prelude.{IsErr, IfOk, IfSome, OnErr};
ghost use Rattle.std.specs.Option.{option_map};
ghost use Rattle.git_objects.specs.declared.limits.TheConstants.{ITEM_BYTES, ITEMS};
ghost use Rattle.proj_io.specs.Counts.{Counts};
ghost use Rattle.proj_io.specs.Stops.{OnlyAdds, Nothing};
ghost use Rattle.proj_disk.specs.Disks.{stable};
ghost use Rattle.proj_journal.specs.Spelling.{header};
ghost use Rattle.proj_journal.specs.Gates.{MayBeOpen};
ghost use Rattle.proj_journal.specs.Journals.{AllFit, GateAt, IsBrokenAt, IsRead, IsSameOrSynced, Reaches};
ghost use Rattle.proj_journal.specs.Windows.{IsWindow};

use crate::gate::{Gate, read_gate};
use crate::place::Place;
use crate::window::Window;
use proj_disk::Disk;
use proj_io::Failed;
use std::alloc::Global;
use thiserror::Error;

/// The first bytes of a journal.
pub(crate) const HEADER: &[u8] = b"proj 01\n";

/// Why there is no journal.
#[derive(Clone, Copy, Debug, PartialEq, Eq, Error)]
pub enum JournalError {
    /// The disk failed.
    #[error("the disk failed")]
    Failed,
    /// The bytes from this place on are no journal's.
    #[error("no journal at {at}")]
    Broken { at: u64 },
    /// There was no memory for the places of the items.
    #[error("out of memory")]
    OutOfMemory,
}

/// Where the items stand, and where the next record goes.
#[derive(Drop)]
pub(crate) struct Found {
    pub(crate) places: Vec<Place>,
    pub(crate) end: u64,
}

// Tells what stands at the place of a gate of a disk that has so many bytes.
pub(crate) fn find_gate<D: Disk>(
    disk: &mut D,
    window: &mut Window,
    at: u64,
    number: usize,
    size: u64,
) -> Result<Gate, Failed>
    requires within { at ≤ size }
    requires size { IfSome (D.content disk.old) (λ view. size ≡ length view.bytes) }
    requires window { IsWindow (D.content disk.old) window.old }
    ensures gate { IfOk result (λ gate. GateAt number at gate (D.content disk.old)) }
    ensures bounds { IfOk result (λ gate. MayBeOpen number (size - at) gate) }
    ensures window { OnOk result (IsWindow (D.content disk.old) window.new) }
    ensures same { D.content disk.new ≡ D.content disk.old }
    ensures stops { OnlyAdds (D.moment disk.old) (D.moment disk.new)
        (D.left_since disk.old) (D.left_since disk.new) Nothing }
    ensures cause { Counts (D.faults disk.old) (D.faults disk.new) (IsErr result) }
{
    match window.look(disk, at) {
        Ok(skip) => Ok(read_gate(window.head(skip), number, size - at)),
        Err(error) => Err(error),
    }
}

// Reads the records behind the header of a disk that has so many bytes, all of them stable.
pub(crate) fn find_records<D: Disk>(
    alloc: Global,
    disk: &mut D,
    size: u64,
) -> Result<Found, JournalError>
    requires header { Reaches 8 [] (D.content disk.old) }
    requires within { 8 ≤ size }
    requires size { IfSome (D.content disk.old) (λ view. size ≡ length view.bytes) }
    ensures read { IfOk result (λ found. IsRead (D.content disk.old) found.end found.places.items) }
    ensures few { IfOk result (λ found. length found.places.items ≤ ITEMS) }
    ensures room { IfOk result (λ found. found.end ≤ 8 + length found.places.items * (ITEM_BYTES + 5)) }
    ensures fit { IfOk result (λ found. AllFit found.places.items) }
    ensures broken { (place : ℕ) → result ≡ Err (JournalError.Broken place) →
        IsBrokenAt place (D.content disk.old) }
    ensures same { D.content disk.new ≡ D.content disk.old }
    ensures stops { OnlyAdds (D.moment disk.old) (D.moment disk.new)
        (D.left_since disk.old) (D.left_since disk.new) Nothing }
    ensures cause { Counts (D.faults disk.old) (D.faults disk.new) (result ≡ Err JournalError.Failed) }
{
    let Ok(mut window) = Window::new(alloc) else {
        return Err(JournalError::OutOfMemory);
    };
    let mut places = Vec::new(alloc);
    let mut at = 8;
    loop {
        match find_gate(disk, &mut window, at, places.len(), size) {
            Ok(Gate::Shut) => return Ok(Found { places, end: at }),
            Ok(Gate::Open(size)) => {
                let Ok(()) = places.push(Place { at: at + 5, size }) else {
                    return Err(JournalError::OutOfMemory);
                };
                at += 5 + size as u64;
            }
            Ok(Gate::Broken) => return Err(JournalError::Broken { at }),
            Err(_) => return Err(JournalError::Failed),
        }
    }
}

// Reads where the items of a journal stand. What was pending is made stable first.
pub(crate) fn find_places<D: Disk>(alloc: Global, disk: &mut D) -> Result<Found, JournalError>
    ensures read { IfOk result (λ found. IsRead (D.content disk.new) found.end found.places.items) }
    ensures few { IfOk result (λ found. length found.places.items ≤ ITEMS) }
    ensures room { IfOk result (λ found. found.end ≤ 8 + length found.places.items * (ITEM_BYTES + 5)) }
    ensures fit { IfOk result (λ found. AllFit found.places.items) }
    ensures stable { OnOk result (D.content disk.new ≡ option_map (λ view. stable view.bytes) (D.content disk.old)) }
    ensures kept { OnErr result (IsSameOrSynced (D.content disk.old) (D.content disk.new)) }
    ensures broken { (place : ℕ) → result ≡ Err (JournalError.Broken place) →
        IsBrokenAt place (D.content disk.old) }
    ensures stops { OnlyAdds (D.moment disk.old) (D.moment disk.new)
        (D.left_since disk.old) (D.left_since disk.new) Nothing }
    ensures cause { Counts (D.faults disk.old) (D.faults disk.new) (result ≡ Err JournalError.Failed) }
{
    let Ok(()) = settle(disk) else {
        return Err(JournalError::Failed);
    };
    let size = match disk.len() {
        Ok(size) => size,
        Err(_) => return Err(JournalError::Failed),
    };
    let found = match find_header(disk) {
        Ok(found) => found,
        Err(_) => return Err(JournalError::Failed),
    };
    if !found {
        return Err(JournalError::Broken { at: 0 });
    }
    if size < 8 {
        return Err(JournalError::Broken { at: 0 });
    }
    find_records(alloc, disk, size)
}

// Makes stable what was written. A stop leaves nothing that it wouldn't have left before.
fn settle<D: Disk>(disk: &mut D) -> Result<(), Failed>
    ensures stable { OnOk result (D.content disk.new ≡ option_map (λ view. stable view.bytes) (D.content disk.old)) }
    ensures failed { IsErr result → D.content disk.new ≡ D.content disk.old }
    ensures stops { OnlyAdds (D.moment disk.old) (D.moment disk.new)
        (D.left_since disk.old) (D.left_since disk.new) Nothing }
    ensures cause { Counts (D.faults disk.old) (D.faults disk.new) (IsErr result) }
{
    disk.sync()
}

// Tells whether a disk begins with the header.
fn find_header<D: Disk>(disk: &mut D) -> Result<bool, Failed>
    ensures header { IfOk result (λ found. IfSome (D.content disk.old) (λ view. IsTrue found ↔ (take 8 view.bytes
        ≡ header))) }
    ensures same { D.content disk.new ≡ D.content disk.old }
    ensures stops { OnlyAdds (D.moment disk.old) (D.moment disk.new)
        (D.left_since disk.old) (D.left_since disk.new) Nothing }
    ensures cause { Counts (D.faults disk.old) (D.faults disk.new) (IsErr result) }
{
    let mut head = [0u8; 8];
    match disk.read(0, &mut head) {
        Ok(count) => Ok(is_header(&head[..count])),
        Err(error) => Err(error),
    }
}

fn is_header(head: &[u8]) -> bool
    ensures { IsTrue result ↔ (head.now ≡ header) }
{
    head == HEADER
}
