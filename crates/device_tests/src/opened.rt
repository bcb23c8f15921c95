// Journals that tests make and open.
ghost use Rattle.std.specs.Prelude.{◌<◌, Some, IfSome, IfOk};
ghost use Rattle.proj_disk.specs.MemDisks.{MemDiskState, view_of};
ghost use Rattle.proj_journal.specs.Journals.{IsOpen};

use proj_disk::MemDisk;
use proj_io::{KeepError, Keeper};
use proj_journal::{Journal, JournalError};
use std::alloc::{AllocError, Global};

// What stands on a disk with some bytes: the place where they are broken, or how many items there are.
#[derive(Clone, Copy, Debug, PartialEq, Eq)]
pub(crate) enum Found {
    Broken(u64),
    Items(u32),
    Fault,
}

// A new journal on a disk in memory whose calls with these numbers fail.
pub(crate) fn new_journal(alloc: Global, failing: Vec<u64>) -> Option<Journal<MemDisk>>
    ensures { IfSome result (λ journal. IsOpen (λ (s : MemDiskState). Some (view_of s)) journal) }
{
    Journal::create(alloc, MemDisk::new(alloc, Vec::new(alloc), failing)).ok()
}

// Adds an item by its halves.
pub(crate) fn append(journal: &mut Journal<MemDisk>, item: &[u8]) -> Result<(), KeepError>
    requires { IsOpen (λ (s : MemDiskState). Some (view_of s)) journal.old }
    ensures { IfOk result (λ _. IsOpen (λ (s : MemDiskState). Some (view_of s)) journal.new) }
{
    match journal.count() {
        Ok(count) if count < 9 && 0 < item.len() && item.len() < 999 => {
            let (front, back) = item.split_at(item.len() / 2);
            journal.append_parts(&[front, back])
        }
        _ => Err(KeepError::OutOfMemory),
    }
}

// The journal on a disk with these bytes, or why there is none.
pub(crate) fn open(
    alloc: Global,
    bytes: &[u8],
) -> Result<Result<Journal<MemDisk>, JournalError>, AllocError>
    ensures { IfOk result (λ opened. IfOk opened (λ journal.
        IsOpen (λ (s : MemDiskState). Some (view_of s)) journal)) }
{
    let disk = MemDisk::new(alloc, bytes.to_vec(alloc)?, Vec::new(alloc));
    Ok(Journal::open(alloc, disk).map_err(|none| none.error))
}

// What stands on a disk with these bytes.
pub(crate) fn opened(alloc: Global, bytes: &[u8]) -> Result<Found, AllocError> {
    Ok(match open(alloc, bytes)? {
        Ok(mut journal) => match journal.count() {
            Ok(count) => Found::Items(count),
            Err(_) => Found::Fault,
        },
        Err(JournalError::Broken { at }) => Found::Broken(at),
        Err(_) => Found::Fault,
    })
}
