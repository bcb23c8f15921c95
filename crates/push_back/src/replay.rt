// The replay of a pushed stream.
ghost use Rattle.std.specs.Prelude.{◌≡◌, ◌⊎◌, ◌<◌, ◌≤◌, ◌↔◌, false, true, List, []};
ghost use Rattle.std.specs.Prelude.{length, IfErr, IfOk, IfSome, IsErrOf, OnErr, OnOk};
ghost use Rattle.git_objects.specs.Paths.{Bytes, is_bytes};
ghost use Rattle.git_objects.specs.declared.limits.TheConstants.{STREAM_BYTES};
ghost use Rattle.object_store.specs.Objects.{Object};
ghost use Rattle.object_store.specs.Unfolding.{flat};
ghost use Rattle.proj_io.specs.Counts.{Counts};
ghost use Rattle.fast_import.specs.Replays.{nothing_yet};
ghost use Rattle.fast_import.specs.Standing.{IsReplayOf};
ghost use Rattle.fast_import.specs.Waited.{TakesWithin};
ghost use Rattle.fast_import.specs.Whole.{IsFed, IsGiven};
ghost use Rattle.push_back.specs.Grounds.{IsGroundIn, from_of};
ghost use Rattle.push_back.specs.Replaying.{Goes, IsPushedWhole, IsRanOn, IsRanWhole, Lasts, ran_whole};
ghost use Rattle.push_back.specs.Waited.{IsTakenTo, push_waited, waited_by};
ghost use Rattle.stream_reader.specs.Verdicts.{start};
ghost use Rattle.stream_reader.specs.declared.fault.StreamFault.TheVariants.{OutOfMemory};

use crate::commands::{Pushed, end_judged};
use crate::{PushBase, PushError};
use fast_import::{Next, Reader, Replay, ReplayError, Replayed, feed_on};
use git_objects::Name;
use object_store::{Store, store_law};
use proj_io::Source;
use std::alloc::Global;

// Bytes of the largest piece that is read at once.
const PIECE: usize = 65_536;

/// Replays a stream that is pushed to the base's ref. Its commits stand in line upon the projection. It is read in
/// pieces, up to its end, its `done` line or its first refusal.
pub fn replay_push<S: Source>(
    alloc: Global,
    input: &mut S,
    base: &PushBase,
    store: &mut Store,
) -> Result<Replayed, PushError>
    requires { IsGroundIn store.old base.now }
    ensures stream { (all : Bytes) × (is_bytes all ≡ true) × IfSome (S.left input.old) (λ bytes. bytes ≡ all) ×
        IsPushedWhole base.now.refname (from_of base.now) (flat store.old base.now.shown.0)
        store.old store.new all result }
    ensures taken { IsTakenTo (push_waited base.now.refname (from_of base.now) (flat store.old base.now.shown.0))
        (S.left input.old) (S.left input.new) result }
    ensures within { TakesWithin (S.left input.old) (S.left input.new) }
    ensures few { IfOk result (λ g. length g.commits.items ≤ STREAM_BYTES) }
    ensures told { S.tells input.new ↔ S.tells input.old }
    ensures cause { Counts (S.faults input.old) (S.faults input.new) (IsErrOf result PushError.ReadFault) }
{
    replay_upon(alloc, input, base, store)
}

/// Replays a pushed stream upon whatever it stands upon, command by command. It is read in pieces, up to its end, its
/// `done` line or its first refusal.
pub fn replay_upon<S: Source, P: Pushed>(
    alloc: Global,
    input: &mut S,
    base: &P,
    store: &mut Store,
) -> Result<Replayed, PushError>
    requires base { P.stands store.old base.now }
    requires lasts { Lasts P.stands P.one store.old base.now }
    requires goes { Goes (P.upon store.old base.now) (P.one store.old base.now) }
    ensures stream { (all : Bytes) × (is_bytes all ≡ true) × IfSome (S.left input.old) (λ bytes. bytes ≡ all) ×
        IsRanWhole (P.upon store.old base.now)
        (ran_whole (P.one store.old base.now) (P.refname base.now) (P.from base.now) all) store.old store.new result }
    ensures taken { IsTakenTo (waited_by (P.one store.old base.now)) (S.left input.old) (S.left input.new) result }
    ensures within { TakesWithin (S.left input.old) (S.left input.new) }
    ensures few { IfOk result (λ g. length g.commits.items ≤ STREAM_BYTES) }
    ensures told { S.tells input.new ↔ S.tells input.old }
    ensures cause { Counts (S.faults input.old) (S.faults input.new) (IsErrOf result PushError.ReadFault) }
{
    let mut piece = [0u8; PIECE];
    let mut reader = Reader::new(alloc);
    let mut replay = Replay::new(alloc);
    match run_on(&mut reader, &mut replay, input, base, store, &mut piece) {
        Err(error) => Err(error),
        Ok(()) => Ok(replay.finish()),
    }
}

// Replays such a stream, read in pieces of at most the buffer's length, by a reader of which nothing has come, into a
// replay that has done nothing. Both are borrowed: their owner drops them in one place, which keeps the proof small.
fn run_on<S: Source, P: Pushed>(
    reader: &mut Reader,
    replay: &mut Replay,
    input: &mut S,
    base: &P,
    store: &mut Store,
    piece: &mut [u8],
) -> Result<(), PushError>
    requires unread { reader.old ≡ record { progress = start; input = record { at = 0; rest = [] }; ended = false } }
    requires fresh { (T : List Object) → IsReplayOf T replay.old nothing_yet }
    requires base { P.stands store.old base.now }
    requires lasts { Lasts P.stands P.one store.old base.now }
    requires goes { Goes (P.upon store.old base.now) (P.one store.old base.now) }
    requires some { 0 < length piece.old }
    requires few { length piece.old ≤ 65536 }
    ensures stream { (all : Bytes) × (is_bytes all ≡ true) × IfSome (S.left input.old) (λ bytes. bytes ≡ all) ×
        IsRanOn (P.upon store.old base.now)
        (ran_whole (P.one store.old base.now) (P.refname base.now) (P.from base.now) all)
        store.old store.new replay.new result }
    ensures taken { IsTakenTo (waited_by (P.one store.old base.now)) (S.left input.old) (S.left input.new) result }
    ensures within { TakesWithin (S.left input.old) (S.left input.new) }
    ensures told { S.tells input.new ↔ S.tells input.old }
    ensures cause { Counts (S.faults input.old) (S.faults input.new) (IsErrOf result PushError.ReadFault) }
{
    store_law(store);
    'stream: loop {
        match reader.next() {
            Err(fault) => return Err(PushError::Stream(fault)),
            Ok(Next::Ended) => return end_judged(replay, base),
            Ok(Next::Command(placed)) => match base.push_on(replay, store, placed) {
                Err(error) => return Err(error),
                Ok(()) => {}
            },
            Ok(Next::More) => match feed(input, reader, piece) {
                Err(error) => return Err(error),
                Ok(()) => {}
            },
        }
    }
}

// Feeds a reader with the next piece, or tells it that the stream ends.
fn feed<S: Source>(input: &mut S, reader: &mut Reader, piece: &mut [u8]) -> Result<(), PushError>
    requires open { reader.old.ended ≡ false }
    requires room { 0 < length piece.old }
    ensures fed { OnOk result (IsFed (S.left input.old) (S.left input.new) reader.old reader.new (length piece.old)) }
    ensures err { IfErr result (λ e. (e ≡ PushError.ReadFault) ⊎ (e ≡ PushError.Stream OutOfMemory)) }
    ensures given { OnErr result (IsGiven (S.left input.old) (S.left input.new) (length piece.old)) }
    ensures told { S.tells input.new ↔ S.tells input.old }
    ensures cause { Counts (S.faults input.old) (S.faults input.new) (IsErrOf result PushError.ReadFault) }
{
    match feed_on(input, reader, piece) {
        Ok(()) => Ok(()),
        Err(ReplayError::ReadFault) => Err(PushError::ReadFault),
        Err(ReplayError::Stream(fault)) => Err(PushError::Stream(fault)),
    }
}
