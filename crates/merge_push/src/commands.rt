// The commands of a push with merges.
ghost use Rattle.std.specs.Prelude.{◌≡◌, ◌↔◌, ◌≤◌, false, true, length, List, IfOk, IfSome, IsErrOf};
ghost use Rattle.std.specs.List.{list_any};
ghost use Rattle.std.specs.Option.{option_map_or};
ghost use Rattle.git_objects.specs.Paths.{Bytes, is_bytes, same_bytes};
ghost use Rattle.git_objects.specs.declared.limits.TheConstants.{STREAM_BYTES};
ghost use Rattle.object_store.specs.Objects.{Object};
ghost use Rattle.object_store.specs.Unfolding.{flat};
ghost use Rattle.proj_io.specs.Counts.{Counts};
ghost use Rattle.fast_import.specs.Waited.{TakesWithin};
ghost use Rattle.fast_import.specs.Replays.{Replay as ReplayOf, target_name};
ghost use Rattle.fast_import.specs.Standing.{IsReplayOf};
ghost use Rattle.push_back.specs.Grounds.{from_of};
ghost use Rattle.merge_laws.specs.StreamLaws.{named};
ghost use Rattle.merge_push.specs.Grounds.{IsGroundIn, ground_in, merge_base_in, projected_in, step_in};
ghost use Rattle.push_back.specs.Waited.{IsTakenTo};
ghost use Rattle.merge_push.specs.Waited.{merge_waited};
ghost use Rattle.merge_push.specs.Replaying.{IsMergedWhole, IsMergeJudged, comes_again, repeats};
ghost use Rattle.push_laws.specs.PushReplays.{chain_end};

use crate::MergeBase;
use fast_import::{Base, Command, CommitHead, CommitRef, Placed, Replay, Replayed};
use git_objects::Name;
use object_store::{Store, store_law};
use path_names::RefName;
use proj_io::Source;
use push_back::{OnRef, PushError, Pushed, chain_end, head_judged, replay_upon};
use std::alloc::Global;

/// Replays a stream with merges that is pushed to the base's ref. It is read in pieces, up to its end, its `done` line
/// or its first refusal.
pub fn replay_merges<S: Source>(
    alloc: Global,
    input: &mut S,
    base: &MergeBase,
    store: &mut Store,
) -> Result<Replayed, PushError>
    requires { IsGroundIn store.old base.now }
    ensures stream { (all : Bytes) × (is_bytes all ≡ true) × IfSome (S.left input.old) (λ bytes. bytes ≡ all) ×
        IsMergedWhole base.now.push.refname (from_of base.now.push) (flat store.old base.now.push.shown.0)
        (projected_in store.old base.now) store.old store.new all result }
    ensures taken { IsTakenTo (merge_waited base.now.push.refname (from_of base.now.push)
        (flat store.old base.now.push.shown.0) (projected_in store.old base.now))
        (S.left input.old) (S.left input.new) result }
    ensures within { TakesWithin (S.left input.old) (S.left input.new) }
    ensures few { IfOk result (λ g. length g.commits.items ≤ STREAM_BYTES) }
    ensures told { S.tells input.new ↔ S.tells input.old }
    ensures cause { Counts (S.faults input.old) (S.faults input.new) (IsErrOf result PushError.ReadFault) }
{
    replay_upon(alloc, input, base, store)
}

impl OnRef for MergeBase {
    ghost refname = { λ g. g.push.refname };

    ghost from = { λ g. from_of g.push };

    fn refname(&self) -> &RefName {
        self.push().refname()
    }

    fn from(&self) -> Option<Name> {
        self.push().from()
    }
}

impl Pushed for MergeBase {
    ghost stands = { IsGroundIn };

    ghost upon = { merge_base_in };

    ghost one = { step_in };

    fn push_on(
        &self,
        replay: &mut Replay,
        store: &mut Store,
        placed: Placed,
    ) -> Result<(), PushError> {
        store_law(store);
        let again = match judged(replay, self, &placed) {
            Err(error) => return Err(error),
            Ok(again) => again,
        };
        let n = replay.commit_count() + 1;
        match replay.step(self, store, placed) {
            Err(fault) => Err(PushError::Stream(fault)),
            Ok(()) => {
                if again {
                    Err(PushError::FurtherParents { n })
                } else {
                    Ok(())
                }
            }
        }
    }
}

// Whether the push itself refuses a command; and whether names of a commit's parents repeat, where each is there.
fn judged(replay: &Replay, base: &MergeBase, placed: &Placed) -> Result<bool, PushError>
    ensures judged { IsMergeJudged replay.now base.now placed.now result }
    ensures read { ¬ IsErrOf result PushError.ReadFault }
{
    match &placed.command {
        Command::Commit(head) => commit_judged(replay, base, placed.at, head),
        Command::Reset { refname, from: _ } => {
            if refname == base.refname() {
                Ok(false)
            } else {
                Err(PushError::OtherRef { at: placed.at })
            }
        }
        Command::Blob { .. }
        | Command::Change(_)
        | Command::CommitEnd
        | Command::Tag(_)
        | Command::Done => Ok(false),
    }
}

// Whether the push refuses a commit for its ref or its first parent; and whether names of its parents repeat.
fn commit_judged(
    replay: &Replay,
    base: &MergeBase,
    at: u64,
    head: &CommitHead,
) -> Result<bool, PushError>
    ensures judged { IsMergeJudged replay.now base.now (record { at = at; command = Command.Commit head.now }) result }
    ensures read { ¬ IsErrOf result PushError.ReadFault }
{
    match head_judged(replay, base, at, head) {
        Err(error) => return Err(error),
        Ok(()) => {}
    }
    Ok(repeats(replay, base, head))
}

// Whether two of the names that a commit's lines give are one: the chain's end, and those of the lines `merge`. A name
// that isn't there is left to the replay, which refuses it before. It takes no memory.
fn repeats(replay: &Replay, base: &MergeBase, head: &CommitHead) -> bool
    ensures { (S : List Object) (r : ReplayOf) → IsReplayOf S replay.now r →
        result ≡ repeats S base.now r head.now }
{
    let merges = head.merges.refs();
    for i in 0..merges.len() {
        if is_again(replay, base, &merges[..i], &merges[i]) {
            return true;
        }
    }
    false
}

// Whether a line gives the name of the chain's end, or one that these lines give.
fn is_again(replay: &Replay, base: &MergeBase, lines: &[CommitRef], line: &CommitRef) -> bool
    ensures { (S : List Object) (r : ReplayOf) → IsReplayOf S replay.now r →
        result ≡ comes_again S base.now r lines.now line.now }
{
    match replay.named(base, line) {
        None => false,
        Some(name) => is_end(replay, base, &name) || is_named(replay, base, lines, &name),
    }
}

// Whether the chain's end has this name.
fn is_end(replay: &Replay, base: &MergeBase, name: &Name) -> bool
    ensures { (S : List Object) (r : ReplayOf) → IsReplayOf S replay.now r →
        result ≡ option_map_or (same_bytes name.now.0) (chain_end (from_of base.now.push) r) false }
{
    match chain_end(replay, base) {
        None => false,
        Some(other) => *name == other,
    }
}

// Whether one of these lines gives a name.
fn is_named(replay: &Replay, base: &MergeBase, lines: &[CommitRef], name: &Name) -> bool
    ensures { (S : List Object) (r : ReplayOf) → IsReplayOf S replay.now r →
        result ≡ list_any (same_bytes name.now.0) (named (ground_in S base.now) r lines.now) }
{
    for line in lines {
        if gives(replay, base, line, name) {
            return true;
        }
    }
    false
}

// Whether a line gives a name.
fn gives(replay: &Replay, base: &MergeBase, line: &CommitRef, name: &Name) -> bool
    ensures { (S : List Object) (r : ReplayOf) → IsReplayOf S replay.now r → result
        ≡ option_map_or (same_bytes name.now.0) (target_name (ground_in S base.now) r line.now.target) false }
{
    match replay.named(base, line) {
        None => false,
        Some(other) => *name == other,
    }
}
