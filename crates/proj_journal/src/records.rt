// Writing a record behind the others, in two steps: the record behind a shut gate, and then the gate.
ghost use Rattle.std.specs.Prelude.{List, ℕ, [], ◌∷◌, ◌≡◌, ◌<◌, ◌≤◌, ◌+◌, ◌^◌};
ghost use Rattle.std.specs.Prelude.{◌↔◌, length, OnOk, IfSome};
ghost use Rattle.std.specs.Prelude.{IsErrOf, IsSome};
ghost use Rattle.git_objects.specs.declared.limits.TheConstants.{ITEM_BYTES, ITEMS};
ghost use Rattle.proj_io.specs.Counts.{Counts};
ghost use Rattle.proj_io.specs.Items.{joined};
ghost use Rattle.proj_io.specs.Stops.{OnlyAdds};
ghost use Rattle.proj_disk.specs.Disks.{IsTornIfKnown};
ghost use Rattle.proj_journal.specs.Spelling.{listed};
ghost use Rattle.proj_journal.specs.Rest.{IsAtRest, IsEmptyList, KeepsRest, IsStaged, KeepsList, Puts, Stages};
ghost use Rattle.proj_journal.specs.Rest.{AddsItem, MayAddItem, SpellsSame, SpellsOneMore};
ghost use Rattle.proj_journal.specs.Rest.{behind_gate, new_bytes, record_and_gate};

use crate::parts::write_parts;
use proj_disk::Disk;
use proj_io::SinkError;

// Writes the header and a shut gate on an empty disk.
pub(crate) fn write_header<D: Disk>(disk: &mut D) -> Result<(), SinkError>
    requires { IfSome (D.content disk.old) (λ view. view.bytes ≡ []) }
    ensures made { OnOk result (IsEmptyList (D.content disk.new)) }
    ensures told { OnOk result (IsSome (D.content disk.new) ↔ IsSome (D.content disk.old)) }
    ensures failed { IsErrOf result SinkError.Failed →
        IsTornIfKnown 0 (length new_bytes) (D.content disk.old) (D.content disk.new) }
    ensures memory { IsErrOf result SinkError.OutOfMemory → D.content disk.new ≡ D.content disk.old }
    ensures cause { Counts (D.faults disk.old) (D.faults disk.new) (IsErrOf result SinkError.Failed) }
{
    disk.write_at(0, b"proj 01\n\0")?;
    match disk.sync() {
        Ok(()) => Ok(()),
        Err(_) => Err(SinkError::Failed),
    }
}

// Writes a piece behind the gate at the end. A stop leaves the same list.
pub(crate) fn write_behind<D: Disk>(
    disk: &mut D,
    end: u64,
    at: u64,
    piece: &[u8],
) -> Result<(), SinkError>
    requires rest { IsAtRest end (D.content disk.old) }
    requires behind { end < at }
    requires inside { IfSome (D.content disk.old) (λ view. at ≤ length view.bytes) }
    requires small { at + length piece.now ≤ 2 ^ 50 }
    ensures rest { OnOk result (KeepsRest end (D.content disk.old) (D.content disk.new)) }
    ensures memory { IsErrOf result SinkError.OutOfMemory → KeepsRest end (D.content disk.old) (D.content disk.new) }
    ensures bytes { OnOk result (Puts at piece.now (D.content disk.old) (D.content disk.new)) }
    ensures list { KeepsList (D.content disk.old) (D.content disk.new) }
    ensures stops { OnlyAdds (D.moment disk.old) (D.moment disk.new) (D.left_since disk.old) (D.left_since disk.new)
        (SpellsSame (D.content disk.old)) }
    ensures cause { Counts (D.faults disk.old) (D.faults disk.new) (IsErrOf result SinkError.Failed) }
    ensures calm { OnOk result (D.faults disk.new ≡ D.faults disk.old) }
    ensures calm_memory { IsErrOf result SinkError.OutOfMemory → D.faults disk.new ≡ D.faults disk.old }
{
    disk.write_at(at, piece)
}

// Writes a record whose gate stays shut, and another shut gate behind it. A stop leaves the same list.
pub(crate) fn stage<D: Disk>(
    disk: &mut D,
    end: u64,
    buffer: &mut Vec<u8>,
    parts: &[&[u8]],
    total: u32,
) -> Result<(), SinkError>
    requires rest { IsAtRest end (D.content disk.old) }
    requires few { IfSome (D.content disk.old) (λ view. length (listed view.bytes) < ITEMS) }
    requires some { 0 < length (joined parts.now) }
    requires size { length (joined parts.now) ≤ ITEM_BYTES }
    requires small { end + length (joined parts.now) + 6 ≤ 2 ^ 50 }
    requires total { total ≡ length (joined parts.now) }
    requires empty { buffer.old.items ≡ [] }
    ensures staged { OnOk result (Stages end (joined parts.now) (D.content disk.old) (D.content disk.new)) }
    ensures memory { IsErrOf result SinkError.OutOfMemory → KeepsRest end (D.content disk.old) (D.content disk.new) }
    ensures bytes { OnOk result (Puts (end + 1) (behind_gate (joined parts.now)) (D.content disk.old)
        (D.content disk.new)) }
    ensures list { KeepsList (D.content disk.old) (D.content disk.new) }
    ensures stops { OnlyAdds (D.moment disk.old) (D.moment disk.new) (D.left_since disk.old) (D.left_since disk.new)
        (SpellsSame (D.content disk.old)) }
    ensures cause { Counts (D.faults disk.old) (D.faults disk.new) (IsErrOf result SinkError.Failed) }
    ensures calm { OnOk result (D.faults disk.new ≡ D.faults disk.old) }
    ensures calm_memory { IsErrOf result SinkError.OutOfMemory → D.faults disk.new ≡ D.faults disk.old }
{
    let size = total.to_be_bytes();
    write_behind(disk, end, end + 1, &size)?;
    write_parts(disk, end, end + 5, buffer, parts)?;
    write_behind(disk, end, end + 5 + total as u64, &[0])?;
    match disk.sync() {
        Ok(()) => Ok(()),
        Err(_) => Err(SinkError::Failed),
    }
}

// Opens the gate before a staged item. A stop leaves the list without the item or with it.
pub(crate) fn open_gate<D: Disk>(disk: &mut D, end: u64) -> Result<(), SinkError>
    requires inside { IfSome (D.content disk.old) (λ view. end ≤ length view.bytes) }
    requires small { end + 1 ≤ 2 ^ 50 }
    ensures opened { (item : List ℕ) → IsStaged end item (D.content disk.old) →
        OnOk result (AddsItem end item (D.content disk.old) (D.content disk.new)) }
    ensures bytes { OnOk result (Puts end (1 ∷ []) (D.content disk.old) (D.content disk.new)) }
    ensures memory { IsErrOf result SinkError.OutOfMemory → D.content disk.new ≡ D.content disk.old }
    ensures list { (item : List ℕ) → IsStaged end item (D.content disk.old) →
        MayAddItem item (D.content disk.old) (D.content disk.new) }
    ensures stops { (item : List ℕ) → IsStaged end item (D.content disk.old) →
        OnlyAdds (D.moment disk.old) (D.moment disk.new) (D.left_since disk.old) (D.left_since disk.new)
        (SpellsOneMore item (D.content disk.old)) }
    ensures stops_memory { IsErrOf result SinkError.OutOfMemory → (item : List ℕ) →
        IsStaged end item (D.content disk.old) →
        OnlyAdds (D.moment disk.old) (D.moment disk.new) (D.left_since disk.old) (D.left_since disk.new)
        (SpellsSame (D.content disk.old)) }
    ensures cause { Counts (D.faults disk.old) (D.faults disk.new) (IsErrOf result SinkError.Failed) }
    ensures calm_memory { IsErrOf result SinkError.OutOfMemory → D.faults disk.new ≡ D.faults disk.old }
{
    disk.write_at(end, &[1])?;
    match disk.sync() {
        Ok(()) => Ok(()),
        Err(_) => Err(SinkError::Failed),
    }
}

// Adds a record. A stop leaves the list without the item or with it.
pub(crate) fn add_record<D: Disk>(
    disk: &mut D,
    end: u64,
    buffer: &mut Vec<u8>,
    parts: &[&[u8]],
    total: u32,
) -> Result<(), SinkError>
    requires rest { IsAtRest end (D.content disk.old) }
    requires few { IfSome (D.content disk.old) (λ view. length (listed view.bytes) < ITEMS) }
    requires some { 0 < length (joined parts.now) }
    requires size { length (joined parts.now) ≤ ITEM_BYTES }
    requires small { end + length (joined parts.now) + 6 ≤ 2 ^ 50 }
    requires total { total ≡ length (joined parts.now) }
    requires empty { buffer.old.items ≡ [] }
    ensures added { OnOk result (AddsItem end (joined parts.now) (D.content disk.old) (D.content disk.new)) }
    ensures bytes { OnOk result (Puts end (record_and_gate (joined parts.now)) (D.content disk.old)
        (D.content disk.new)) }
    ensures memory { IsErrOf result SinkError.OutOfMemory → KeepsRest end (D.content disk.old) (D.content disk.new) }
    ensures list { MayAddItem (joined parts.now) (D.content disk.old) (D.content disk.new) }
    ensures stops { OnlyAdds (D.moment disk.old) (D.moment disk.new) (D.left_since disk.old) (D.left_since disk.new)
        (SpellsOneMore (joined parts.now) (D.content disk.old)) }
    ensures stops_memory { IsErrOf result SinkError.OutOfMemory →
        OnlyAdds (D.moment disk.old) (D.moment disk.new) (D.left_since disk.old) (D.left_since disk.new)
        (SpellsSame (D.content disk.old)) }
    ensures cause { Counts (D.faults disk.old) (D.faults disk.new) (IsErrOf result SinkError.Failed) }
    ensures calm_memory { IsErrOf result SinkError.OutOfMemory → D.faults disk.new ≡ D.faults disk.old }
{
    stage(disk, end, buffer, parts, total)?;
    open_gate(disk, end)
}
