// A disk over a file of the system.
ghost use Rattle.std.specs.Prelude.{◌≡◌, ◌≤◌, length, drop, None, IfOk, IsErr, OnOk, Ok};
ghost use Rattle.proj_io.specs.Counts.{Counts, held, held_bound};
ghost use Rattle.proj_disk.specs.Disks.{NothingLeft};

use crate::Disk;
use proj_io::{Failed, SinkError};
use std::fs::File;
use std::io;
use std::os::unix::fs::FileExt;

/// A disk over a file. Each error of a call of the file is a fault. It tells nothing, and refuses nothing for memory.
#[derive(Drop)]
pub struct FileDisk {
    file: File,
    faults: u64,
}

impl FileDisk {
    /// A disk over a file that may be read and written.
    pub fn new(file: File) -> FileDisk {
        FileDisk { file, faults: 0 }
    }
}

impl Disk for FileDisk {
    ghost content = { λ _. None };

    ghost faults = { λ disk. held disk.faults };

    ghost moment = { λ _. 0 };

    ghost left_since = { λ _. NothingLeft };

    ghost counts_now = { λ _ _ _ _ left. absurd left };

    ghost only_now = { λ _ _ left. absurd left };

    ghost reads = { λ _. tt };

    ghost in_range = { λ disk. held_bound disk.faults };

    fn len(&mut self) -> Result<u64, Failed> {
        note(&mut self.faults, size_of(&self.file))
    }

    fn read(&mut self, at: u64, buf: &mut [u8]) -> Result<usize, Failed> {
        note(&mut self.faults, read_from(&self.file, at, buf))
    }

    fn write_at(&mut self, at: u64, piece: &[u8]) -> Result<(), SinkError> {
        match note(&mut self.faults, self.file.write_all_at(piece, at)) {
            Ok(()) => Ok(()),
            Err(_) => Err(SinkError::Failed),
        }
    }

    fn sync(&mut self) -> Result<(), Failed> {
        note(&mut self.faults, self.file.sync_all())
    }
}

// Counts an error as a fault.
fn note<T>(faults: &mut u64, outcome: io::Result<T>) -> Result<T, Failed>
    ensures value { IfOk result (λ value. outcome ≡ Ok value) }
    ensures counted { Counts (held faults.old) (held faults.new) (IsErr result) }
    ensures calm { OnOk result (faults.new ≡ faults.old) }
{
    match outcome {
        Ok(value) => Ok(value),
        Err(_) => {
            *faults = faults.saturating_add(1);
            Err(Failed)
        }
    }
}

// The number of bytes of a file.
fn size_of(file: &File) -> io::Result<u64> {
    Ok(file.metadata()?.len())
}

// Reads from a place until the buffer is full or the file ends. The size is asked first, so that only what is read
// changes in the buffer.
fn read_from(file: &File, at: u64, buf: &mut [u8]) -> io::Result<usize>
    ensures bound { IfOk result (λ n. n ≤ length buf.old) }
    ensures rest { IfOk result (λ n. drop n buf.new ≡ drop n buf.old) }
{
    let behind = size_of(file)?.saturating_sub(at);
    let count = buf.len().min(behind as usize);
    file.read_exact_at(&mut buf[..count], at)?;
    Ok(count)
}
