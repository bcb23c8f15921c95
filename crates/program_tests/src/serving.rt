// The program on disks in memory.
use crate::calls::{FIRST, IMPORT, PROJECT, sink, source, strings};
use proj_cli::serve;
use proj_disk::MemDisk;
use proj_io::MemSink;
use std::alloc::{AllocError, Global};
use std::test::Fail;

// What a call answers and writes, and the disk then.
#[derive(Drop)]
pub(crate) struct Answer {
    pub(crate) status: u8,
    pub(crate) out: MemSink,
    pub(crate) err: MemSink,
    pub(crate) disk: MemDisk,
}

impl Answer {
    pub(crate) fn is(&self, status: u8, out: &[u8], err: &[u8]) -> bool {
        self.status == status && self.out.bytes() == out && self.err.bytes() == err
    }

    // Whether it tells this, or where that is nothing, that there is no such ref.
    pub(crate) fn tells(&self, told: Option<&[u8]>) -> bool {
        match told {
            None => self.is(8, b"", b"unknown ref\n"),
            Some(out) => self.is(0, out, b""),
        }
    }
}

pub(crate) fn served(
    alloc: Global,
    disk: MemDisk,
    words: &[&str],
    input: &[u8],
) -> Result<Answer, AllocError> {
    let words = strings(alloc, words)?;
    let mut input = source(alloc, input)?;
    let (mut out, mut err) = (sink(alloc), sink(alloc));
    let end = serve(alloc, &words, &mut input, &mut out, &mut err, disk);
    Ok(Answer {
        status: end.status,
        out,
        err,
        disk: end.disk,
    })
}

pub(crate) fn disk_of(alloc: Global, bytes: &[u8]) -> Result<MemDisk, AllocError> {
    Ok(MemDisk::new(alloc, bytes.to_vec(alloc)?, Vec::new(alloc)))
}

// The disk behind a call, which has to be done, to write this alone and to leave so many bytes.
fn done(
    alloc: Global,
    disk: MemDisk,
    words: &[&str],
    input: &[u8],
    out: &[u8],
    size: usize,
) -> Result<MemDisk, Fail> {
    let answer = served(alloc, disk, words, input)?;
    if !answer.is(0, out, b"") {
        return Err(Fail::from("another answer"));
    }
    if answer.disk.bytes().len() != size {
        return Err(Fail::from("another size of the disk"));
    }
    Ok(answer.disk)
}

#[test]
fn a_store_stays(rt: HostRuntime) -> Result<(), Fail> {
    let alloc = rt.alloc();
    let told = b"refs/heads/main 5990ba6163d77f77071ca2e8e9899c368dbc6eb7\n";
    let shown = b"6a27ff6de5d45a65cc66723c6ae6227ea6004aa6\n";
    let disk = done(alloc, disk_of(alloc, b"")?, IMPORT, FIRST, told, 263)?;
    // What was found out is kept in an item of 73 bytes: format, kind and rule, the length and the text of the filter,
    // the number of entries, and one entry of three names. The second time nothing is found out.
    let disk = done(alloc, disk, PROJECT, b"", shown, 263 + 5 + 73)?;
    done(alloc, disk, PROJECT, b"", shown, 263 + 5 + 73)?;
    Ok(())
}

// Whether the import on a disk of which this call fails is told a fault of the store.
fn is_store_fault(alloc: Global, call: u64) -> Result<bool, AllocError> {
    let disk = MemDisk::new(alloc, Vec::new(alloc), [call].to_vec(alloc)?);
    Ok(served(alloc, disk, IMPORT, FIRST)?.is(24, b"", b"store fault\n"))
}

#[test]
fn a_disk_that_fails_is_a_fault_of_the_store(rt: HostRuntime) -> Result<(), Fail> {
    let alloc = rt.alloc();
    for call in 0..3u64 {
        assert!(rt; is_store_fault(alloc, call)?, "{call}");
    }
    Ok(())
}
