// The replay of a whole stream.
ghost use Rattle.std.specs.Prelude.{◌≡◌, ◌⊎◌, ◌<◌, ◌≤◌, ◌↔◌, ℕ, List, true, false};
ghost use Rattle.std.specs.Prelude.{length, take, IfErr, IfOk};
ghost use Rattle.std.specs.Prelude.{[], IfSome, IsErrOf, None, OnErr, OnOk};
ghost use Rattle.git_objects.specs.Paths.{is_bytes};
ghost use Rattle.git_objects.specs.declared.limits.TheConstants.{STREAM_BYTES};
ghost use Rattle.proj_io.specs.Counts.{Counts};
ghost use Rattle.fast_import.specs.Bases.{IsBaseIn, base_in};
ghost use Rattle.fast_import.specs.Waited.{IsTaken, IsTakenIn, TakesWithin};
ghost use Rattle.fast_import.specs.Replays.{nothing_yet};
ghost use Rattle.fast_import.specs.Standing.{IsReplayOf};
ghost use Rattle.fast_import.specs.Whole.{IsFed, IsGiven, IsRunOn, IsTaggedWhole, IsWhole, IsWholeRun};
ghost use Rattle.object_store.specs.Objects.{Object};
ghost use Rattle.stream_reader.specs.Verdicts.{tagged_start};
ghost use Rattle.stream_reader.specs.declared.fault.StreamFault.TheVariants.{OutOfMemory};
ghost use Rattle.tag_objects.specs.TagLists.{rise};

use crate::{Base, Next, Reader, Replay, Replayed, StreamFault, TaggedReplay, replayed_tags_law};
use git_objects::Name;
use object_store::{Store, store_law};
use proj_io::Source;
use std::alloc::Global;

// Bytes of the largest piece that is read at once.
const PIECE: usize = 65_536;

/// Why a stream is not replayed.
#[derive(Clone, Copy, Debug, PartialEq, Eq)]
pub enum ReplayError {
    /// The source failed.
    ReadFault,
    Stream(StreamFault),
}

/// Replays a stream upon what is there. It is read in pieces, up to its end, its `done` line or its first fault. A
/// command `tag` is Unsupported.
pub fn replay_all<S: Source, B: Base>(
    alloc: Global,
    input: &mut S,
    base: &B,
    store: &mut Store,
) -> Result<Replayed, ReplayError>
    requires { IsBaseIn store.old (B.commits base.now) (B.refs base.now) (B.blobs base.now) }
    ensures stream { (all : List ℕ) × (is_bytes all ≡ true)
        × IfSome (S.left input.old) (λ bytes. bytes ≡ all) ×
        IsWhole (base_in store.old (B.commits base.now) (B.refs base.now) (B.blobs base.now))
        store.old store.new all result }
    ensures taken { IsTaken (base_in store.old (B.commits base.now) (B.refs base.now) (B.blobs base.now))
        (S.left input.old) (S.left input.new) result }
    ensures within { TakesWithin (S.left input.old) (S.left input.new) }
    ensures few { IfOk result (λ g. length g.commits.items ≤ STREAM_BYTES) }
    ensures told { S.tells input.new ↔ S.tells input.old }
    ensures cause { Counts (S.faults input.old) (S.faults input.new) (IsErrOf result ReplayError.ReadFault) }
{
    match run_whole(alloc, Reader::new(alloc), input, base, store) {
        Err(error) => Err(error),
        Ok(replay) => Ok(replay.finish()),
    }
}

/// Replays a stream upon what is there, and gives its tags, too. It is read in pieces, up to its end, its `done` line
/// or its first fault.
pub fn replay_tagged<S: Source, B: Base>(
    alloc: Global,
    input: &mut S,
    base: &B,
    store: &mut Store,
) -> Result<TaggedReplay, ReplayError>
    requires { IsBaseIn store.old (B.commits base.now) (B.refs base.now) (B.blobs base.now) }
    ensures stream { (all : List ℕ) × (is_bytes all ≡ true) × IfSome (S.left input.old) (λ bytes. bytes ≡ all)
        × IsTaggedWhole (base_in store.old (B.commits base.now) (B.refs base.now) (B.blobs base.now))
        store.old store.new all result }
    ensures tags { IfOk result (λ g. rise None g.tags.items ≡ true) }
    ensures taken { IsTakenIn tagged_start (base_in store.old (B.commits base.now) (B.refs base.now) (B.blobs base.now))
        (S.left input.old) (S.left input.new) result }
    ensures within { TakesWithin (S.left input.old) (S.left input.new) }
    ensures few { IfOk result (λ g. length g.replayed.commits.items ≤ STREAM_BYTES) }
    ensures told { S.tells input.new ↔ S.tells input.old }
    ensures cause { Counts (S.faults input.old) (S.faults input.new) (IsErrOf result ReplayError.ReadFault) }
{
    replayed_tags_law();
    match run_whole(alloc, Reader::tagged(alloc), input, base, store) {
        Err(error) => Err(error),
        Ok(replay) => Ok(replay.finish_tagged()),
    }
}

// Replays a stream upon what is there, by a reader of which nothing has come.
fn run_whole<S: Source, B: Base>(
    alloc: Global,
    mut reader: Reader,
    input: &mut S,
    base: &B,
    store: &mut Store,
) -> Result<Replay, ReplayError>
    requires base { IsBaseIn store.old (B.commits base.now) (B.refs base.now) (B.blobs base.now) }
    requires unread { reader.input ≡ record { at = 0; rest = [] } }
    requires open { reader.ended ≡ false }
    ensures stream { (all : List ℕ) × (is_bytes all ≡ true) × IfSome (S.left input.old) (λ bytes. bytes ≡ all)
        × IsWholeRun reader.progress (base_in store.old (B.commits base.now) (B.refs base.now) (B.blobs base.now))
        store.old store.new all result }
    ensures taken { IsTakenIn reader.progress
        (base_in store.old (B.commits base.now) (B.refs base.now) (B.blobs base.now))
        (S.left input.old) (S.left input.new) result }
    ensures within { TakesWithin (S.left input.old) (S.left input.new) }
    ensures told { S.tells input.new ↔ S.tells input.old }
    ensures cause { Counts (S.faults input.old) (S.faults input.new) (IsErrOf result ReplayError.ReadFault) }
{
    let mut replay = Replay::new(alloc);
    match run_on(&mut reader, &mut replay, input, base, store) {
        Err(error) => Err(error),
        Ok(()) => Ok(replay),
    }
}

// Replays a stream upon what is there, by a reader of which nothing has come, into a replay that has done nothing. Both
// are borrowed: their owner drops them in one place, which keeps the proof small.
fn run_on<S: Source, B: Base>(
    reader: &mut Reader,
    replay: &mut Replay,
    input: &mut S,
    base: &B,
    store: &mut Store,
) -> Result<(), ReplayError>
    requires base { IsBaseIn store.old (B.commits base.now) (B.refs base.now) (B.blobs base.now) }
    requires unread { reader.old.input ≡ record { at = 0; rest = [] } }
    requires open { reader.old.ended ≡ false }
    requires fresh { (S : List Object) → IsReplayOf S replay.old nothing_yet }
    ensures stream { (all : List ℕ) × (is_bytes all ≡ true) × IfSome (S.left input.old) (λ bytes. bytes ≡ all)
        × IsRunOn reader.old.progress (base_in store.old (B.commits base.now) (B.refs base.now) (B.blobs base.now))
        store.old store.new replay.new all result }
    ensures taken { IsTakenIn reader.old.progress
        (base_in store.old (B.commits base.now) (B.refs base.now) (B.blobs base.now))
        (S.left input.old) (S.left input.new) result }
    ensures within { TakesWithin (S.left input.old) (S.left input.new) }
    ensures told { S.tells input.new ↔ S.tells input.old }
    ensures cause { Counts (S.faults input.old) (S.faults input.new) (IsErrOf result ReplayError.ReadFault) }
{
    store_law(store);
    let mut piece = [0u8; PIECE];
    'stream: loop {
        match reader.next() {
            Err(fault) => return Err(ReplayError::Stream(fault)),
            Ok(Next::Ended) => return Ok(()),
            Ok(Next::Command(placed)) => match replay.step(base, store, placed) {
                Err(fault) => return Err(ReplayError::Stream(fault)),
                Ok(()) => {}
            },
            Ok(Next::More) => match feed_on(input, reader, &mut piece) {
                Err(error) => return Err(error),
                Ok(()) => {}
            },
        }
    }
}

/// Feeds a reader with the next piece, at most as long as the buffer, or tells it that the stream ends. After an error
/// the reader is of no more use.
pub fn feed_on<S: Source>(
    input: &mut S,
    reader: &mut Reader,
    piece: &mut [u8],
) -> Result<(), ReplayError>
    requires open { reader.old.ended ≡ false }
    requires room { 0 < length piece.old }
    ensures fed { OnOk result (IsFed (S.left input.old) (S.left input.new) reader.old reader.new (length piece.old)) }
    ensures err { IfErr result (λ e. (e ≡ ReplayError.ReadFault) ⊎ (e ≡ ReplayError.Stream OutOfMemory)) }
    ensures given { OnErr result (IsGiven (S.left input.old) (S.left input.new) (length piece.old)) }
    ensures told { S.tells input.new ↔ S.tells input.old }
    ensures cause { Counts (S.faults input.old) (S.faults input.new) (IsErrOf result ReplayError.ReadFault) }
{
    match input.read(piece) {
        Err(_) => Err(ReplayError::ReadFault),
        Ok(0) => {
            reader.end();
            Ok(())
        }
        Ok(count) => match reader.feed(front(piece, count)) {
            Ok(()) => Ok(()),
            Err(_) => Err(ReplayError::Stream(StreamFault::OutOfMemory)),
        },
    }
}

// The front of a piece, of which the proof learns that it is bytes.
fn front(piece: &[u8], count: usize) -> &[u8]
    requires { count ≤ length piece.now }
    ensures value { result.now ≡ take count piece.now }
    ensures bytes { is_bytes result.now ≡ true }
{
    &piece[..count]
}
