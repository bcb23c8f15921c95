// What a disk in memory leaves, and that a file is a disk.
ghost use Rattle.std.specs.Prelude.{◌<◌};

use crate::opened::Found;
use proj_disk::{Disk, FileDisk, Fill, MemDisk};
use proj_io::{Failed, Keeper, SinkError};
use proj_journal::Journal;
use std::alloc::{AllocError, Global};
use std::fs::{File, remove_file};
use std::io;
use std::test::Fail;

// A call of a disk, with its answer.
#[derive(Clone, Copy)]
enum Step {
    Len(Result<u64, Failed>),
    Write(u64, &'static [u8], Result<(), SinkError>),
    Sync(Result<(), Failed>),
}

// Makes a call of a disk in memory.
fn steps(disk: &mut MemDisk, step: Step) -> bool {
    match step {
        Step::Len(answer) => disk.len() == answer,
        Step::Write(at, piece, answer) => {
            at < 99
                && at as usize <= disk.bytes().len()
                && piece.len() < 99
                && disk.write_at(at, piece) == answer
        }
        Step::Sync(answer) => disk.sync() == answer,
    }
}

// Whether a stop after so many calls leaves this.
fn leaves(disk: &MemDisk, calls: u64, fill: Fill, image: &[u8]) -> Result<bool, AllocError> {
    Ok(calls <= disk.calls() && disk.image(calls, fill)?.as_slice() == image)
}

const STEPS: [Step; 6] = [
    Step::Len(Ok(3)),
    Step::Sync(Err(Failed)),
    Step::Write(1, b"xyz", Ok(())),
    Step::Sync(Ok(())),
    Step::Write(0, b"w", Err(SinkError::Failed)),
    Step::Write(4, b"vv", Ok(())),
];

// A number of calls, what fills the ranges that aren't stable, and the image.
const IMAGES: [(u64, Fill, &[u8]); 8] = [
    (2, Fill::Ones, b"abc"),
    (3, Fill::Old, b"abc"),
    (3, Fill::Written, b"axyz"),
    (3, Fill::Ones, b"a\x01\x01\x01"),
    (4, Fill::Ones, b"axyz"),
    (6, Fill::Old, b"axyz"),
    (6, Fill::Written, b"axyzvv"),
    (6, Fill::Ones, b"axyz\x01\x01"),
];

#[test]
fn a_disk_leaves_images(rt: HostRuntime) -> Result<(), Fail> {
    let alloc = rt.alloc();
    let mut disk = MemDisk::new(alloc, b"abc".to_vec(alloc)?, [1, 4].to_vec(alloc)?);
    for step in &STEPS {
        assert!(rt; steps(&mut disk, *step));
    }
    assert!(rt; is_as_written(&disk));
    for (calls, fill, image) in &IMAGES {
        assert!(rt; leaves(&disk, *calls, *fill, image)?);
    }
    Ok(())
}

fn is_as_written(disk: &MemDisk) -> bool {
    disk.bytes() == b"axyzvv".as_slice() && disk.faults() == 2 && disk.calls() == 6
}

const PATH: &str = "device_tests.disk";

// A disk over a file in the folder in which the tests run, which is made anew where that is asked for.
fn file_disk(rt: &HostRuntime, anew: bool) -> io::Result<FileDisk> {
    let mut options = File::options();
    options.read(true).write(true).create(anew).truncate(anew);
    Ok(FileDisk::new(options.open(rt, PATH)?))
}

// Reads from a place on, into a buffer whose rest stays.
fn reads(disk: &mut FileDisk, at: u64, want: &[u8]) -> bool {
    let mut buf = *b"......";
    match disk.read(at, &mut buf) {
        Ok(count) => &buf[..count] == want && (count == 6 || buf[5] == b'.'),
        Err(_) => false,
    }
}

// Writes twice, syncs and reads.
fn holds_what_was_written(disk: &mut FileDisk) -> bool {
    disk.write_at(0, b"abcd") == Ok(())
        && disk.write_at(2, b"xyz") == Ok(())
        && disk.sync() == Ok(())
        && disk.len() == Ok(5)
        && reads(disk, 1, b"bxyz")
        && reads(disk, 5, b"")
        && reads(disk, u64::MAX, b"")
}

// Adds an item to a new journal on a file.
fn adds_an_item(alloc: Global, disk: FileDisk) -> bool {
    match Journal::create(alloc, disk) {
        Ok(mut journal) => journal.count() == Ok(0) && journal.append(b"item") == Ok(()),
        Err(_) => false,
    }
}

// What stands on a file.
fn opened(alloc: Global, disk: FileDisk) -> Found {
    match Journal::open(alloc, disk) {
        Ok(mut journal) => match journal.count() {
            Ok(count) => Found::Items(count),
            Err(_) => Found::Fault,
        },
        Err(_) => Found::Fault,
    }
}

#[test]
fn a_file_is_a_disk(rt: HostRuntime) -> Result<(), Fail> {
    let alloc = rt.alloc();
    assert!(rt; holds_what_was_written(&mut file_disk(&rt, true)?));
    let mut disk = FileDisk::new(File::open(&rt, PATH)?);
    assert!(rt; disk.write_at(0, b"w") == Err(SinkError::Failed));
    assert!(rt; adds_an_item(alloc, file_disk(&rt, true)?));
    assert!(rt; opened(alloc, file_disk(&rt, false)?) == Found::Items(1));
    remove_file(&rt, PATH)?;
    Ok(())
}
