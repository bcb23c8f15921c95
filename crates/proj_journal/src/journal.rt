// The journal, a keeper of items over a disk.
ghost use Rattle.std.specs.Prelude.{◌≡◌, ◌≢◌, [], ◌<◌, ◌≤◌, ◌+◌, ◌^◌, ◌⊎◌, ℕ};
ghost use Rattle.std.specs.Prelude.{length, take, drop, IsSome};
ghost use Rattle.std.specs.Prelude.{◌↔◌, IsErr, IfOk, IfErr, IfSome, IsErrOf, MatchResult, OnOk, false};
ghost use Rattle.std.specs.Option.{option_map};
ghost use Rattle.git_objects.specs.declared.limits.TheConstants.{ITEM_BYTES, ITEMS};
ghost use Rattle.proj_io.specs.Items.{Gets, Stays, joined};
ghost use Rattle.proj_io.specs.Stops.{IsBeforeOrAfter, IsPresent, OnlyAdds, Nothing};
ghost use Rattle.proj_journal.specs.Journals.{AllFit, IsEmpty, IsNew, IsOpen, IsReadAs, ListsLeft, disk_of, place_at};
ghost use Rattle.proj_journal.specs.Journals.{IsSameOrSynced, items_in, items_of, number_in, number_of, items_known};
ghost use Rattle.proj_journal.specs.Journals.{items_counted};
ghost use Rattle.proj_io.specs.Counts.{Counts};
ghost use Rattle.proj_disk.specs.Disks.{Elapses, IsTornIfKnown, front_at, stable};
ghost use Rattle.proj_journal.specs.Rest.{GetsRecord, new_bytes};
ghost use Rattle.proj_journal.specs.Settled.{settled_list};

use crate::opening::{JournalError, find_places};
use crate::parts::{buffer_for, joined_len};
use crate::place::Place;
use crate::records::{add_record, write_header};
use proj_disk::Disk;
use proj_io::{Failed, KeepError, Keeper, SinkError};
use std::alloc::Global;

/// A list of items on a disk.
#[derive(Drop)]
pub struct Journal<D> {
    disk: D,
    places: Vec<Place>,
    end: u64,
    closed: bool,
}

/// The disk that is no journal, as it then is, and why.
#[derive(Debug, Drop)]
pub struct NoJournal<D> {
    pub disk: D,
    pub error: JournalError,
}

impl<D: Disk> Journal<D> {
    /// A journal without items on an empty disk. A stop during the call may leave a disk that is no journal's.
    pub fn create(alloc: Global, disk: D) -> Result<Journal<D>, NoJournal<D>>
        requires { IfSome (D.content disk) (λ view. view.bytes ≡ []) }
        ensures created { IfOk result (λ journal. IsOpen D.content journal) }
        ensures empty { IfOk result (λ journal. IsEmpty (D.content (disk_of journal))) }
        // Its bytes are those of a new journal, and nothing else.
        ensures bytes { IfOk result (λ journal. IsNew (D.content (disk_of journal))) }
        ensures told { IfOk result (λ journal. IsSome (D.content (disk_of journal)) ↔ IsSome (D.content disk)) }
        // A write that failed may have put any bytes where those of a new journal go. Want of memory changes nothing.
        ensures begun { IfErr result (λ none. none.error ≡ JournalError.Failed →
            IsTornIfKnown 0 (length new_bytes) (D.content disk) (D.content none.disk)) }
        ensures memory { IfErr result (λ none. none.error ≡ JournalError.OutOfMemory →
            D.content none.disk ≡ D.content disk) }
        ensures not_broken { IfErr result (λ none. (place : ℕ) → none.error ≢ JournalError.Broken place) }
        ensures cause { MatchResult result
            (λ journal. D.faults disk ≤ D.faults (disk_of journal))
            (λ none. Counts (D.faults disk) (D.faults none.disk) (none.error ≡ JournalError.Failed)) }
    {
        let mut disk = disk;
        match write_header(&mut disk) {
            Ok(()) => Ok(Journal {
                disk,
                places: Vec::new(alloc),
                end: 8,
                closed: false,
            }),
            Err(SinkError::OutOfMemory) => Err(NoJournal {
                disk,
                error: JournalError::OutOfMemory,
            }),
            Err(SinkError::Failed) => Err(NoJournal {
                disk,
                error: JournalError::Failed,
            }),
        }
    }

    /// The journal that stands on the disk. What was pending is made stable before it is read.
    pub fn open(alloc: Global, disk: D) -> Result<Journal<D>, NoJournal<D>>
        ensures opened { IfOk result (λ journal. IsOpen D.content journal) }
        ensures stable { IfOk result (λ journal.
            D.content (disk_of journal) ≡ option_map (λ view. stable view.bytes) (D.content disk)) }
        // It is Broken exactly where the bytes spell no list, with the place.
        ensures read { IsReadAs (D.content disk) result }
        // Where there is no journal, the bytes on the disk are what they were.
        ensures kept { IfErr result (λ none. IsSameOrSynced (D.content disk) (D.content none.disk)) }
        // A stop leaves nothing that it wouldn't have left before.
        ensures stops { MatchResult result
            (λ journal. OnlyAdds (D.moment disk) (D.moment (disk_of journal))
            (D.left_since disk) (D.left_since (disk_of journal)) Nothing)
            (λ none. OnlyAdds (D.moment disk) (D.moment none.disk) (D.left_since disk)
            (D.left_since none.disk) Nothing) }
        ensures cause { MatchResult result
            (λ journal. D.faults disk ≤ D.faults (disk_of journal))
            (λ none. Counts (D.faults disk) (D.faults none.disk) (none.error ≡ JournalError.Failed)) }
    {
        let mut disk = disk;
        match find_places(alloc, &mut disk) {
            Ok(found) => Ok(Journal {
                disk,
                places: found.places,
                end: found.end,
                closed: false,
            }),
            Err(error) => Err(NoJournal { disk, error }),
        }
    }

    /// The disk, given back.
    pub fn into_disk(self) -> D
        ensures { result ≡ disk_of self }
    {
        let Journal {
            disk,
            places: _,
            end: _,
            closed: _,
        } = self;
        disk
    }

    /// The disk.
    pub fn disk(&self) -> &D
        ensures { result.now ≡ disk_of self.now }
    {
        &self.disk
    }
}

impl<D: Disk> Keeper for Journal<D> {
    ghost tells = { λ journal. IsSome (D.content journal.disk) };

    ghost items = { λ journal. items_of (D.content journal.disk) };

    ghost number = { λ journal. number_of (D.content journal.disk) journal.places.items };

    ghost faults = { λ journal. D.faults journal.disk };

    ghost is_open = { IsOpen D.content };

    ghost moment = { λ journal. D.moment journal.disk };

    ghost left_since = { λ journal. ListsLeft (D.left_since journal.disk) };

    ghost known = { λ journal told. items_known (D.content journal.disk) told };

    ghost in_range = { λ journal. D.in_range journal.disk };

    ghost counted = { λ journal. items_counted (D.content journal.disk) journal.places.items };

    ghost settled = { λ journal list opened left. settled_list D.content D.moment D.left_since D.only_now journal
        list opened left };

    fn count(&mut self) -> Result<u32, Failed> {
        Ok(self.places.len() as u32)
    }

    fn size(&mut self, item: u32) -> Result<u32, Failed> {
        Ok(find_place(&self.places, item).size)
    }

    fn read(&mut self, item: u32, from: u32, buf: &mut [u8]) -> Result<usize, Failed> {
        let place = find_place(&self.places, item);
        let count = buf.len().min(place.size.saturating_sub(from) as usize);
        if count == 0 {
            return Ok(0);
        }
        read_part(&mut self.disk, place.at + from as u64, buf, count)
    }

    fn append(&mut self, bytes: &[u8]) -> Result<(), KeepError>
        requires is_open { IsOpen D.content self.old }
        requires some { 0 < length bytes.now }
        requires size { length bytes.now ≤ ITEM_BYTES }
        requires room { number_in D.content self.old < ITEMS }
        ensures number { OnOk result (number_in D.content self.new ≡ number_in D.content self.old + 1) }
        ensures items { OnOk result (Gets (items_in D.content self.old) (items_in D.content self.new) bytes.now) }
        ensures failed { IsErrOf result KeepError.Failed →
            ((number_in D.content self.new ≡ number_in D.content self.old)
            × Stays (items_in D.content self.old) (items_in D.content self.new))
            ⊎ ((number_in D.content self.new ≡ number_in D.content self.old + 1)
            × Gets (items_in D.content self.old) (items_in D.content self.new) bytes.now) }
        ensures memory { IsErrOf result KeepError.OutOfMemory →
            (number_in D.content self.new ≡ number_in D.content self.old)
            × Stays (items_in D.content self.old) (items_in D.content self.new) }
        ensures closed { IsErrOf result KeepError.Failed → ¬ IsOpen D.content self.new }
        ensures is_open { MatchResult result
            (λ _. IsOpen D.content self.new)
            (λ error. error ≡ KeepError.OutOfMemory → IsOpen D.content self.new) }
        ensures told { IsSome (D.content (disk_of self.new)) ↔ IsSome (D.content (disk_of self.old)) }
        ensures stops { OnlyAdds (D.moment (disk_of self.old)) (D.moment (disk_of self.new))
            (ListsLeft (D.left_since (disk_of self.old))) (ListsLeft (D.left_since (disk_of self.new)))
            (IsBeforeOrAfter (items_in D.content self.old) bytes.now) }
        ensures stops_memory { IsErrOf result KeepError.OutOfMemory →
            OnlyAdds (D.moment (disk_of self.old)) (D.moment (disk_of self.new))
            (ListsLeft (D.left_since (disk_of self.old))) (ListsLeft (D.left_since (disk_of self.new)))
            (IsPresent (items_in D.content self.old)) }
        ensures cause { Counts (D.faults (disk_of self.old)) (D.faults (disk_of self.new))
            (IsErrOf result KeepError.Failed) }
        ensures calm { IsErrOf result KeepError.OutOfMemory →
            D.faults (disk_of self.new) ≡ D.faults (disk_of self.old) }
        // The record stands where the list ended, with a gate 0 behind it.
        ensures bytes { OnOk result (GetsRecord bytes.now (D.content (disk_of self.old))
            (D.content (disk_of self.new))) }
    {
        self.append_parts(&[bytes])
    }

    fn append_parts(&mut self, parts: &[&[u8]]) -> Result<(), KeepError>
        requires is_open { IsOpen D.content self.old }
        requires some { 0 < length (joined parts.now) }
        requires size { length (joined parts.now) ≤ ITEM_BYTES }
        requires room { number_in D.content self.old < ITEMS }
        ensures number { OnOk result (number_in D.content self.new ≡ number_in D.content self.old + 1) }
        ensures items { OnOk result (Gets (items_in D.content self.old) (items_in D.content self.new)
            (joined parts.now)) }
        ensures failed { IsErrOf result KeepError.Failed →
            ((number_in D.content self.new ≡ number_in D.content self.old)
            × Stays (items_in D.content self.old) (items_in D.content self.new))
            ⊎ ((number_in D.content self.new ≡ number_in D.content self.old + 1)
            × Gets (items_in D.content self.old) (items_in D.content self.new) (joined parts.now)) }
        ensures memory { IsErrOf result KeepError.OutOfMemory →
            (number_in D.content self.new ≡ number_in D.content self.old)
            × Stays (items_in D.content self.old) (items_in D.content self.new) }
        ensures closed { IsErrOf result KeepError.Failed → ¬ IsOpen D.content self.new }
        ensures is_open { MatchResult result
            (λ _. IsOpen D.content self.new)
            (λ error. error ≡ KeepError.OutOfMemory → IsOpen D.content self.new) }
        ensures told { IsSome (D.content (disk_of self.new)) ↔ IsSome (D.content (disk_of self.old)) }
        ensures stops { OnlyAdds (D.moment (disk_of self.old)) (D.moment (disk_of self.new))
            (ListsLeft (D.left_since (disk_of self.old))) (ListsLeft (D.left_since (disk_of self.new)))
            (IsBeforeOrAfter (items_in D.content self.old) (joined parts.now)) }
        ensures stops_memory { IsErrOf result KeepError.OutOfMemory →
            OnlyAdds (D.moment (disk_of self.old)) (D.moment (disk_of self.new))
            (ListsLeft (D.left_since (disk_of self.old))) (ListsLeft (D.left_since (disk_of self.new)))
            (IsPresent (items_in D.content self.old)) }
        ensures cause { Counts (D.faults (disk_of self.old)) (D.faults (disk_of self.new))
            (IsErrOf result KeepError.Failed) }
        ensures calm { IsErrOf result KeepError.OutOfMemory →
            D.faults (disk_of self.new) ≡ D.faults (disk_of self.old) }
        // The record stands where the list ended, with a gate 0 behind it.
        ensures bytes { OnOk result (GetsRecord (joined parts.now) (D.content (disk_of self.old))
            (D.content (disk_of self.new))) }
    {
        let Ok(mut buffer) = buffer_for(*self.places.allocator(), parts) else {
            return Err(KeepError::OutOfMemory);
        };
        let size = joined_len(parts) as u32;
        let place = Place {
            at: self.end + 5,
            size,
        };
        let Ok(()) = self.places.push(place) else {
            return Err(KeepError::OutOfMemory);
        };
        match add_record(&mut self.disk, self.end, &mut buffer, parts, size) {
            Ok(()) => {
                self.end += 5 + size as u64;
                Ok(())
            }
            Err(SinkError::OutOfMemory) => {
                self.places.pop();
                Err(KeepError::OutOfMemory)
            }
            Err(SinkError::Failed) => {
                self.places.pop();
                self.closed = true;
                Err(KeepError::Failed)
            }
        }
    }
}

// Where an item stands.
fn find_place(places: &[Place], item: u32) -> Place
    ensures place { result ≡ place_at places.now item }
    ensures none { length places.now ≤ item → result.size ≡ 0 }
    ensures fits { AllFit places.now → result.at + result.size ≤ 2 ^ 50 }
{
    match places.get(item as usize) {
        Some(place) => *place,
        None => Place { at: 0, size: 0 },
    }
}

// Reads so many bytes from a place on.
fn read_part<D: Disk>(disk: &mut D, at: u64, buf: &mut [u8], count: usize) -> Result<usize, Failed>
    requires { count ≤ length buf.old }
    ensures bound { IfOk result (λ n. n ≤ count) }
    ensures bytes { IfOk result (λ n. IfSome (D.content disk.old) (λ view. take n buf.new
        ≡ front_at at count view.bytes)) }
    ensures rest { IfOk result (λ n. drop n buf.new ≡ drop n buf.old) }
    ensures same { D.content disk.new ≡ D.content disk.old }
    ensures time { Elapses (D.moment disk.old) (D.moment disk.new)
        (D.left_since disk.old) (D.left_since disk.new) (D.content disk.new) }
    ensures cause { Counts (D.faults disk.old) (D.faults disk.new) (IsErr result) }
{
    let read = disk.read(at, &mut buf[..count])?;
    Ok(read)
}
