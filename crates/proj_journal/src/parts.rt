// Writing parts behind the gate, gathered into pieces.
ghost use Rattle.std.specs.Prelude.{[], ◌≡◌, ◌<◌, ◌≤◌, ◌+◌, ◌++◌, ◌^◌, length, IfOk};
ghost use Rattle.std.specs.Prelude.{IfSome, IsErrOf, OnOk};
ghost use Rattle.git_objects.specs.declared.limits.TheConstants.{ITEM_BYTES};
ghost use Rattle.proj_io.specs.Counts.{Counts};
ghost use Rattle.proj_io.specs.Items.{joined};
ghost use Rattle.proj_io.specs.Stops.{OnlyAdds};
ghost use Rattle.proj_journal.specs.Gathering.{IsGathered, WritesBehind};
ghost use Rattle.proj_journal.specs.Rest.{IsAtRest, KeepsRest, KeepsList, Puts, SpellsSame};

use crate::records::write_behind;
use proj_disk::Disk;
use proj_io::SinkError;
use std::alloc::{AllocError, Global};

// How many bytes are gathered before they are written.
const GATHERED: usize = 65536;

/// A buffer in which these parts are gathered. One part alone needs none, and takes no memory.
pub(crate) fn buffer_for(alloc: Global, parts: &[&[u8]]) -> Result<Vec<u8>, AllocError>
    ensures { IfOk result (λ buffer. buffer.items ≡ []) }
{
    match parts.len() {
        0 | 1 => Ok(Vec::new(alloc)),
        _ => Vec::with_capacity(alloc, GATHERED),
    }
}

/// How many bytes these parts have together.
pub(crate) fn joined_len(parts: &[&[u8]]) -> usize
    requires { length (joined parts.now) ≤ ITEM_BYTES }
    ensures { result ≡ length (joined parts.now) }
{
    let mut len = 0;
    for part in parts {
        len += part.len();
    }
    len
}

// Writes what is gathered at a place, and answers the place behind it.
fn flush<D: Disk>(disk: &mut D, end: u64, at: u64, buffer: &mut Vec<u8>) -> Result<u64, SinkError>
    requires rest { IsAtRest end (D.content disk.old) }
    requires behind { end < at }
    requires inside { IfSome (D.content disk.old) (λ view. at ≤ length view.bytes) }
    requires small { at + length buffer.old.items ≤ 2 ^ 50 }
    ensures behind { WritesBehind D.content D.moment D.left_since D.faults end disk.old disk.new
        (IsErrOf result SinkError.Failed) }
    ensures gathered { IfOk result (λ next. IsGathered at next buffer.old.items [] (D.content disk.old)
        (D.content disk.new)) }
    ensures empty { OnOk result (buffer.new.items ≡ []) }
{
    if buffer.is_empty() {
        return Ok(at);
    }
    write_behind(disk, end, at, buffer)?;
    let next = at + buffer.len() as u64;
    buffer.clear();
    Ok(next)
}

// Whether the memory of the buffer is enough for a part more.
fn has_room(buffer: &Vec<u8>, part: &[u8]) -> bool {
    part.len() <= buffer.capacity().saturating_sub(buffer.len())
}

fn keep(buffer: &mut Vec<u8>, part: &[u8]) -> Result<(), SinkError>
    ensures kept { OnOk result (buffer.new.items ≡ buffer.old.items ++ part.now) }
    ensures calm { IsErrOf result SinkError.Failed → ⊥ }
{
    match buffer.extend_from_slice(part) {
        Ok(()) => Ok(()),
        Err(_) => Err(SinkError::OutOfMemory),
    }
}

// Gathers a part, and answers the place behind what is written. What was gathered before is written where the part has
// no room behind it, and a part that has no room at all is written by itself.
fn gather<D: Disk>(
    disk: &mut D,
    end: u64,
    at: u64,
    buffer: &mut Vec<u8>,
    part: &[u8],
) -> Result<u64, SinkError>
    requires rest { IsAtRest end (D.content disk.old) }
    requires behind { end < at }
    requires inside { IfSome (D.content disk.old) (λ view. at ≤ length view.bytes) }
    requires small { at + length buffer.old.items + length part.now ≤ 2 ^ 50 }
    ensures behind { WritesBehind D.content D.moment D.left_since D.faults end disk.old disk.new
        (IsErrOf result SinkError.Failed) }
    ensures gathered { IfOk result (λ next. IsGathered at next (buffer.old.items ++ part.now) buffer.new.items
        (D.content disk.old) (D.content disk.new)) }
{
    if has_room(buffer, part) {
        keep(buffer, part)?;
        return Ok(at);
    }
    let next = flush(disk, end, at, buffer)?;
    if has_room(buffer, part) {
        keep(buffer, part)?;
        return Ok(next);
    }
    write_behind(disk, end, next, part)?;
    Ok(next + part.len() as u64)
}

// Writes parts behind the gate at the end, one behind another, gathered as far as the memory of the buffer goes. A stop
// leaves the same list.
pub(crate) fn write_parts<D: Disk>(
    disk: &mut D,
    end: u64,
    at: u64,
    buffer: &mut Vec<u8>,
    parts: &[&[u8]],
) -> Result<(), SinkError>
    requires rest { IsAtRest end (D.content disk.old) }
    requires behind { end < at }
    requires inside { IfSome (D.content disk.old) (λ view. at ≤ length view.bytes) }
    requires small { at + length (joined parts.now) ≤ 2 ^ 50 }
    requires empty { buffer.old.items ≡ [] }
    ensures rest { OnOk result (KeepsRest end (D.content disk.old) (D.content disk.new)) }
    ensures memory { IsErrOf result SinkError.OutOfMemory → KeepsRest end (D.content disk.old) (D.content disk.new) }
    ensures bytes { OnOk result (Puts at (joined parts.now) (D.content disk.old) (D.content disk.new)) }
    ensures list { KeepsList (D.content disk.old) (D.content disk.new) }
    ensures stops { OnlyAdds (D.moment disk.old) (D.moment disk.new) (D.left_since disk.old) (D.left_since disk.new)
        (SpellsSame (D.content disk.old)) }
    ensures cause { Counts (D.faults disk.old) (D.faults disk.new) (IsErrOf result SinkError.Failed) }
    ensures calm { OnOk result (D.faults disk.new ≡ D.faults disk.old) }
    ensures calm_memory { IsErrOf result SinkError.OutOfMemory → D.faults disk.new ≡ D.faults disk.old }
{
    let mut next = at;
    for part in parts {
        next = gather(disk, end, next, buffer, part)?;
    }
    flush(disk, end, next, buffer)?;
    Ok(())
}
