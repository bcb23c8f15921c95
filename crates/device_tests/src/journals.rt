// A journal on a disk in memory, and each image that a stop leaves of it.
ghost use Rattle.std.specs.Prelude.{◌<◌, Some};
ghost use Rattle.proj_disk.specs.MemDisks.{MemDiskState, view_of};
ghost use Rattle.proj_journal.specs.Journals.{IsOpen};

use crate::opened::{Found, append, new_journal, open, opened};
use proj_disk::{Fill, MemDisk};
use proj_io::{KeepError, Keeper};
use proj_journal::Journal;
use std::alloc::{AllocError, Global};
use std::test::Fail;

// Whether an item has its number's byte so often and once more.
fn is_item(journal: &mut Journal<MemDisk>, item: u32) -> bool
    requires { IsOpen (λ (s : MemDiskState). Some (view_of s)) journal.old }
    ensures { IsOpen (λ (s : MemDiskState). Some (view_of s)) journal.new }
{
    let mut buf = [9u8; 9];
    let Ok(read) = journal.read(item, 0, &mut buf) else {
        return false;
    };
    read as u64 == item as u64 + 1 && buf[..read].iter().all(|byte| *byte as u32 == item)
}

// Whether a disk with these bytes has so many items, or one more where that may be, each of them as it must be.
fn has_items(
    alloc: Global,
    bytes: &[u8],
    number: u32,
    may_have_more: bool,
) -> Result<bool, AllocError> {
    let Ok(mut journal) = open(alloc, bytes)? else {
        return Ok(false);
    };
    let Ok(count) = journal.count() else {
        return Ok(false);
    };
    for item in 0..count {
        if !is_item(&mut journal, item) {
            return Ok(false);
        }
    }
    Ok(count == number || may_have_more && count > 0 && count - 1 == number)
}

// Whether each stop at a call of an append, from the one with this number on, leaves the items before or the item too,
// and one after the last call the item too.
fn leaves_items(
    alloc: Global,
    disk: &MemDisk,
    before: u64,
    number: u32,
) -> Result<bool, AllocError> {
    let after = disk.calls();
    for calls in before..after {
        for fill in [Fill::Old, Fill::Written, Fill::Ones] {
            let image = disk.image(calls, fill)?;
            if !has_items(alloc, &image, number, true)? {
                return Ok(false);
            }
        }
    }
    let image = disk.image(after, Fill::Ones)?;
    Ok(number < 9 && has_items(alloc, &image, number + 1, false)?)
}

const ITEMS: [(u32, &[u8]); 3] = [(0, &[0]), (1, &[1, 1]), (2, &[2, 2, 2])];

#[test]
fn each_image_has_what_was_acknowledged(rt: HostRuntime) -> Result<(), Fail> {
    let alloc = rt.alloc();
    let Some(mut journal) = new_journal(alloc, Vec::new(alloc)) else {
        return Err(Fail::from(Found::Fault));
    };
    for (number, item) in &ITEMS {
        let before = journal.disk().calls();
        let Ok(()) = append(&mut journal, item) else {
            return Err(Fail::from(Found::Fault));
        };
        assert!(rt;
            leaves_items(alloc, journal.disk(), before, *number)?,
            "{number}"
        );
    }
    assert!(rt; journal.disk().calls() == 20);
    assert!(rt; journal.into_disk().bytes().len() == 30);
    Ok(())
}

// The items after an append of which one call fails: a stop in its last sync may leave the item.
fn items_after_fault(alloc: Global, failing: u64) -> Result<Found, AllocError> {
    let Some(mut journal) = new_journal(alloc, [failing].to_vec(alloc)?) else {
        return Ok(Found::Fault);
    };
    let answer = append(&mut journal, &[0]);
    if answer != Err(KeepError::Failed) || journal.disk().faults() != 1 {
        return Ok(Found::Fault);
    }
    opened(alloc, journal.disk().bytes())
}

#[test]
fn a_failed_append_leaves_a_list(rt: HostRuntime) -> Result<(), Fail> {
    let alloc = rt.alloc();
    for failing in 2..8 {
        let count = if failing == 7 { 1 } else { 0 };
        assert!(rt;
            items_after_fault(alloc, failing)? == Found::Items(count),
            "{failing}"
        );
    }
    Ok(())
}
