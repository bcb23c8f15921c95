// A disk in memory. Which call fails is decided by its number alone.
ghost use Rattle.std.specs.Prelude.{◌≡◌, ◌<◌, ◌≤◌, ◌+◌, ◌-◌, ◌^◌, ◌↔◌, [], ◌∷◌};
ghost use Rattle.std.specs.Prelude.{◌++◌, length, take, drop};
ghost use Rattle.std.specs.Prelude.{Contains, Option, IfOk, OnOk, OnErr, IsErr, IsErrOf, Some, None};
ghost use Rattle.std.specs.Prelude.{unwrap_or};
ghost use Rattle.std.specs.Option.{option_map, is_some};
ghost use Rattle.proj_io.specs.Counts.{Counts, held, held_bound, one_more};
ghost use Rattle.proj_disk.specs.Disks.{DiskView, IsImage, IsTornIfKnown, Elapses, put, written, stable};
ghost use Rattle.proj_disk.specs.Disks.{front_at};
ghost use Rattle.proj_disk.specs.MemDisks.{view_of, view_after, moment_of, LeftSince, marked, after, settled};
ghost use Rattle.proj_disk.specs.MemDisks.{after_read, after_write, after_sync, FailsByNumber, early, early_writes};
ghost use Rattle.proj_disk.specs.MemDisks.{is_late, filled, IsFollowed};
ghost use Rattle.proj_disk.specs.Moments.{view_counts, only_view, view_reads};

use crate::Disk;
use git_objects::Bytes;
use proj_io::{Failed, SinkError};
use std::alloc::{AllocError, Global};
use std::marker::Model;

/// What a stop leaves in the ranges that were written since the last sync.
#[derive(Clone, Copy, Debug, PartialEq, Eq)]
pub enum Fill {
    /// What stood there before.
    Old,
    /// What was written.
    Written,
    /// The byte 1.
    Ones,
}

/// A write, and the call of the sync that followed it before the next write, if one did and succeeded.
#[derive(Drop)]
pub struct DiskWrite {
    at: usize,
    piece: Bytes,
    call: u64,
    sync: Option<u64>,
}

/// A disk in memory. Its calls are numbered from 0, and the number stays at its last value. It keeps each write, so
/// that it answers for every moment since it was made.
#[derive(Drop)]
pub struct MemDisk {
    alloc: Global,
    start: Vec<u8>,
    // The bytes as they read, once one was written.
    changed: Option<Vec<u8>>,
    writes: Vec<DiskWrite>,
    failing: Vec<u64>,
    calls: u64,
    faults: u64,
}

impl Model for MemDisk {
    ghost use Rattle.std.specs.Prelude.{◌≡◌, unwrap_or};
    ghost use Rattle.std.specs.Option.{option_map};
    ghost use Rattle.proj_disk.specs.MemDisks.{MemDiskState, view_of};

    ghost Value = { MemDiskState };

    ghost view = { λ s. record {
      start = s.start.items;
      writes = s.writes.items;
      failing = s.failing.items;
      calls = s.calls;
      faults = s.faults;
    } };

    ghost invariant = { λ s. unwrap_or (option_map (λ bytes. bytes.items) s.changed) s.start.items
        ≡ (view_of (record {
          start = s.start.items;
          writes = s.writes.items;
          failing = s.failing.items;
          calls = s.calls;
          faults = s.faults;
        })).bytes };
}

impl MemDisk {
    /// A disk with these bytes, all of them stable. The calls numbered in `failing` fail. It takes no memory.
    pub fn new(alloc: Global, bytes: Vec<u8>, failing: Vec<u64>) -> MemDisk
        ensures { result ≡ record {
          start = bytes.items;
          writes = [];
          failing = failing.items;
          calls = 0;
          faults = 0;
        } }
    {
        MemDisk {
            alloc,
            start: bytes,
            changed: None,
            writes: Vec::new(alloc),
            failing,
            calls: 0,
            faults: 0,
        }
    }

    /// Its bytes, as they read.
    pub fn bytes(&self) -> &[u8]
        ensures { result.now ≡ (view_of self.now).bytes }
    {
        current(&self.start, &self.changed)
    }

    /// The number of calls so far, which is the next call's number.
    pub fn calls(&self) -> u64
        ensures { result ≡ self.now.calls }
    {
        self.calls
    }

    /// How often a call of it has failed.
    pub fn faults(&self) -> u64
        ensures { result ≡ self.now.faults }
    {
        self.faults
    }

    /// One of the images that a stop after the first `calls` calls leaves: in the ranges that weren't stable then
    /// stands what stood there before, what was written, or the byte 1.
    pub fn image(&self, calls: u64, fill: Fill) -> Result<Vec<u8>, AllocError>
        requires { calls ≤ self.now.calls }
        ensures left { IfOk result (λ image. IsImage (view_after calls self.now) image.items) }
        ensures filled { IfOk result (λ image. image.items ≡ filled fill (view_after calls self.now)) }
        // It is one of the images that the disk tells since it was made.
        ensures since { IfOk result (λ image. LeftSince self.now 0 image.items) }
    {
        image_of(self.alloc, &self.start, &self.writes, calls, fill)
    }
}

impl Disk for MemDisk {
    ghost content = { λ s. Some (view_of s) };

    ghost faults = { λ s. held s.faults };

    ghost moment = { moment_of };

    ghost left_since = { LeftSince };

    ghost counts_now = { λ s t image le left. view_counts s t image le left };

    ghost only_now = { λ s image left. only_view s image left };

    ghost reads = { λ s. view_reads s };

    ghost in_range = { λ s. held_bound s.faults };

    fn len(&mut self) -> Result<u64, Failed>
        ensures count { IfOk result (λ n. n ≡ length (view_of self.old).bytes) }
        ensures same { Some (view_of self.new) ≡ Some (view_of self.old) }
        ensures time { Elapses (moment_of self.old) (moment_of self.new) (LeftSince self.old) (LeftSince self.new)
            (Some (view_of self.new)) }
        ensures cause { Counts (held self.old.faults) (held self.new.faults) (IsErr result) }
        ensures calm { OnOk result (held self.new.faults ≡ held self.old.faults) }
        ensures failing { FailsByNumber self.old (IsErr result) }
        ensures after { self.new ≡ after_read self.old result }
    {
        number_call(&self.failing, &mut self.calls, &mut self.faults)?;
        Ok(current(&self.start, &self.changed).len() as u64)
    }

    fn read(&mut self, at: u64, buf: &mut [u8]) -> Result<usize, Failed>
        ensures bound { IfOk result (λ n. n ≤ length buf.old) }
        ensures bytes { IfOk result (λ n.
            take n buf.new ≡ front_at at (length buf.old) (view_of self.old).bytes) }
        ensures rest { IfOk result (λ n. drop n buf.new ≡ drop n buf.old) }
        ensures same { Some (view_of self.new) ≡ Some (view_of self.old) }
        ensures time { Elapses (moment_of self.old) (moment_of self.new) (LeftSince self.old) (LeftSince self.new)
            (Some (view_of self.new)) }
        ensures cause { Counts (held self.old.faults) (held self.new.faults) (IsErr result) }
        ensures calm { OnOk result (held self.new.faults ≡ held self.old.faults) }
        ensures failing { FailsByNumber self.old (IsErr result) }
        ensures after { self.new ≡ after_read self.old result }
    {
        number_call(&self.failing, &mut self.calls, &mut self.faults)?;
        let bytes = current(&self.start, &self.changed);
        let from = bytes.len().min(at as usize);
        Ok(copy_front(&bytes[from..], buf))
    }

    fn write_at(&mut self, at: u64, piece: &[u8]) -> Result<(), SinkError>
        requires inside { at ≤ length (view_of self.old).bytes }
        requires small { at + length piece.now ≤ 2 ^ 50 }
        ensures written { OnOk result (Some (view_of self.new) ≡ Some (written at piece.now (view_of self.old))) }
        ensures failed { IsErrOf result SinkError.Failed →
            IsTornIfKnown at (length piece.now) (Some (view_of self.old)) (Some (view_of self.new)) }
        ensures memory { IsErrOf result SinkError.OutOfMemory → Some (view_of self.new) ≡ Some (view_of self.old) }
        ensures time { Elapses (moment_of self.old) (moment_of self.new) (LeftSince self.old) (LeftSince self.new)
            (Some (view_of self.new)) }
        ensures cause { Counts (held self.old.faults) (held self.new.faults) (IsErrOf result SinkError.Failed) }
        ensures calm { OnOk result (held self.new.faults ≡ held self.old.faults) }
        ensures calm_memory { IsErrOf result SinkError.OutOfMemory → held self.new.faults ≡ held self.old.faults }
        ensures failing { FailsByNumber self.old (IsErrOf result SinkError.Failed) }
        ensures after { self.new ≡ after_write self.old at piece.now result }
    {
        let call = self.calls;
        let Ok(()) = number_call(&self.failing, &mut self.calls, &mut self.faults) else {
            return Err(SinkError::Failed);
        };
        let Ok(()) = add(
            self.alloc,
            &self.start,
            &mut self.changed,
            &mut self.writes,
            at as usize,
            piece,
            call,
        ) else {
            return Err(SinkError::OutOfMemory);
        };
        Ok(())
    }

    fn sync(&mut self) -> Result<(), Failed>
        ensures stable { OnOk result (Some (view_of self.new) ≡ Some (stable (view_of self.old).bytes)) }
        ensures failed { IsErr result → Some (view_of self.new) ≡ Some (view_of self.old) }
        ensures time { Elapses (moment_of self.old) (moment_of self.new) (LeftSince self.old) (LeftSince self.new)
            (Some (view_of self.new)) }
        ensures cause { Counts (held self.old.faults) (held self.new.faults) (IsErr result) }
        ensures calm { OnOk result (held self.new.faults ≡ held self.old.faults) }
        ensures failing { FailsByNumber self.old (IsErr result) }
        ensures after { self.new ≡ after_sync self.old result }
    {
        let call = self.calls;
        number_call(&self.failing, &mut self.calls, &mut self.faults)?;
        mark_last(&mut self.writes, call);
        Ok(())
    }
}

// Numbers a call, and counts it where it fails.
fn number_call(failing: &[u64], calls: &mut u64, faults: &mut u64) -> Result<(), Failed>
    ensures calls { calls.new ≡ one_more calls.old }
    ensures ok { OnOk result (faults.new ≡ faults.old) }
    ensures err { OnErr result (faults.new ≡ one_more faults.old) }
    ensures failing { IsErr result ↔ Contains failing.now calls.old }
{
    let failed = failing.contains(calls);
    *calls = calls.saturating_add(1);
    if failed {
        *faults = faults.saturating_add(1);
        return Err(Failed);
    }
    Ok(())
}

// The bytes as they read.
fn current<'a>(start: &'a [u8], changed: &'a Option<Vec<u8>>) -> &'a [u8]
    ensures { result.now ≡ unwrap_or (option_map (λ bytes. bytes.items) changed.now) start.now }
{
    match changed {
        Some(bytes) => bytes,
        None => start,
    }
}

// Copies as much as fits.
fn copy_front(rest: &[u8], buf: &mut [u8]) -> usize
    ensures bound { result ≤ length buf.old }
    ensures copied { take result buf.new ≡ take (length buf.old) rest.now }
    ensures rest { drop result buf.new ≡ drop result buf.old }
{
    let count = rest.len().min(buf.len());
    buf[..count].copy_from_slice(&rest[..count]);
    count
}

// Puts a piece at a place, and keeps the write.
fn add(
    alloc: Global,
    start: &[u8],
    changed: &mut Option<Vec<u8>>,
    writes: &mut Vec<DiskWrite>,
    at: usize,
    piece: &[u8],
    call: u64,
) -> Result<(), AllocError>
    requires { at ≤ length (unwrap_or (option_map (λ bytes. bytes.items) changed.old) start.now) }
    ensures bytes { OnOk result (unwrap_or (option_map (λ bytes. bytes.items) changed.new) start.now
        ≡ put at piece.now (unwrap_or (option_map (λ bytes. bytes.items) changed.old) start.now)) }
    ensures writes { OnOk result (writes.new.items ≡ writes.old.items
        ++ record { at = at; piece = piece.now; call = call; sync = None } ∷ []) }
    ensures bytes_err { OnErr result (unwrap_or (option_map (λ bytes. bytes.items) changed.new) start.now
        ≡ unwrap_or (option_map (λ bytes. bytes.items) changed.old) start.now) }
    ensures writes_err { OnErr result (writes.new.items ≡ writes.old.items) }
{
    let copy = Bytes::of(piece.to_vec(alloc)?);
    writes.push(DiskWrite {
        at,
        piece: copy,
        call,
        sync: None,
    })?;
    if change(alloc, start, changed, at, piece).is_err() {
        writes.pop();
        return Err(AllocError);
    }
    Ok(())
}

// Puts a piece at a place of the bytes as they read.
fn change(
    alloc: Global,
    start: &[u8],
    changed: &mut Option<Vec<u8>>,
    at: usize,
    piece: &[u8],
) -> Result<(), AllocError>
    requires { at ≤ length (unwrap_or (option_map (λ bytes. bytes.items) changed.old) start.now) }
    ensures ok { OnOk result (unwrap_or (option_map (λ bytes. bytes.items) changed.new) start.now
        ≡ put at piece.now (unwrap_or (option_map (λ bytes. bytes.items) changed.old) start.now)) }
    ensures err { OnErr result (unwrap_or (option_map (λ bytes. bytes.items) changed.new) start.now
        ≡ unwrap_or (option_map (λ bytes. bytes.items) changed.old) start.now) }
{
    match changed {
        Some(bytes) => put_at(bytes, at, piece),
        None => {
            let mut bytes = start.to_vec(alloc)?;
            put_at(&mut bytes, at, piece)?;
            *changed = Some(bytes);
            Ok(())
        }
    }
}

// Puts a piece at a place, over what is there and past the end.
fn put_at(bytes: &mut Vec<u8>, at: usize, piece: &[u8]) -> Result<(), AllocError>
    requires { at ≤ length bytes.old.items }
    ensures ok { OnOk result (bytes.new.items ≡ put at piece.now bytes.old.items) }
    ensures err { OnErr result (bytes.new.items ≡ bytes.old.items) }
{
    let over = piece.len().min(bytes.len() - at);
    bytes.extend_from_slice(&piece[over..])?;
    bytes[at..at + over].copy_from_slice(&piece[..over]);
    Ok(())
}

// Marks the last write as synced, where it isn't yet.
fn mark_last(writes: &mut Vec<DiskWrite>, call: u64)
    ensures { writes.new.items ≡ marked call writes.old.items }
{
    let count = writes.len();
    if count > 0 {
        let last = &mut writes[count - 1];
        if last.sync.is_none() {
            last.sync = Some(call);
        }
    }
}

// An image that a stop after the first so many calls leaves.
fn image_of(
    alloc: Global,
    start: &[u8],
    writes: &[DiskWrite],
    calls: u64,
    fill: Fill,
) -> Result<Vec<u8>, AllocError>
    ensures left { IfOk result (λ image.
        IsImage (after (stable start.now) (early_writes calls writes.now)) image.items) }
    ensures filled { IfOk result (λ image.
        image.items ≡ filled fill (after (stable start.now) (early_writes calls writes.now))) }
{
    let mut now = start.to_vec(alloc)?;
    let mut image = start.to_vec(alloc)?;
    let mut late = false;
    for write in writes {
        if late || write.call >= calls {
            break;
        }
        follow(alloc, &mut now, &mut image, write, calls, fill)?;
        late = comes_late(write.sync, calls);
    }
    Ok(image)
}

// Goes on by one write, and by the sync that followed it.
fn follow(
    alloc: Global,
    now: &mut Vec<u8>,
    image: &mut Vec<u8>,
    write: &DiskWrite,
    calls: u64,
    fill: Fill,
) -> Result<(), AllocError>
    ensures { OnOk result ((disk : DiskView) → IsFollowed fill disk now.old.items image.old.items →
        IsFollowed fill (settled (early calls write.now.sync) (written write.now.at write.now.piece disk))
        now.new.items image.new.items) }
{
    fill_in(alloc, image, write, fill)?;
    put_on(now, write.at, write.piece.bytes())?;
    if comes_early(write.sync, calls) {
        *image = now.to_vec(alloc)?;
    }
    Ok(())
}

// Whether a sync is among the first so many calls.
fn comes_early(sync: Option<u64>, calls: u64) -> bool
    ensures { result ≡ is_some (early calls sync) }
{
    match sync {
        Some(call) => call < calls,
        None => false,
    }
}

// Whether a sync followed, but not among the first so many calls.
fn comes_late(sync: Option<u64>, calls: u64) -> bool
    ensures { result ≡ is_late calls sync }
{
    match sync {
        Some(call) => call >= calls,
        None => false,
    }
}

// Puts a piece at a place or at the end.
fn put_on(bytes: &mut Vec<u8>, at: usize, piece: &[u8]) -> Result<(), AllocError>
    ensures { OnOk result (bytes.new.items ≡ put at piece.now bytes.old.items) }
{
    let at = at.min(bytes.len());
    put_at(bytes, at, piece)
}

// What a stop leaves of a write that isn't stable.
fn fill_in(
    alloc: Global,
    image: &mut Vec<u8>,
    write: &DiskWrite,
    fill: Fill,
) -> Result<(), AllocError>
    ensures { OnOk result ((disk : DiskView) → IsImage disk image.old.items →
        image.old.items ≡ filled fill disk →
        IsImage (written write.now.at write.now.piece disk) image.new.items
        × (image.new.items ≡ filled fill (written write.now.at write.now.piece disk))) }
{
    match fill {
        Fill::Old => Ok(()),
        Fill::Written => put_on(image, write.at, write.piece.bytes()),
        Fill::Ones => {
            let ones = vec![in alloc; 1; write.piece.bytes().len()]?;
            put_on(image, write.at, &ones)
        }
    }
}
