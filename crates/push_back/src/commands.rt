// One command of a push.
ghost use Rattle.std.specs.Prelude.{◌≡◌, true, List, IfErr, IsErrOf, OnOk};
ghost use Rattle.std.specs.Option.{option_map};
ghost use Rattle.git_objects.specs.Parts.{name_bytes};
ghost use Rattle.object_store.specs.Objects.{Object};
ghost use Rattle.fast_import.specs.Bases.{base_in};
ghost use Rattle.fast_import.specs.Replays.{Replay as ReplayOf};
ghost use Rattle.fast_import.specs.Standing.{IsReplayOf};
ghost use Rattle.stream_reader.specs.Replayable.{is_replayable};
ghost use Rattle.push_back.specs.Grounds.{IsGroundIn, from_of, push_base_in};
ghost use Rattle.push_laws.specs.PushReplays.{chain_end, is_same_name};
ghost use Rattle.push_back.specs.Replaying.{IsAtHead, IsEndJudged, IsJudged, IsOffHead, IsTriedBy, step_in};

use crate::{PushBase, PushError};
use fast_import::{Base, Command, CommitHead, Placed, Replay};
use git_objects::Name;
use object_store::{Store, store_law};
use path_names::RefName;

/// What a pushed stream stands upon, on which ref, and the projection, where there is one.
pub trait OnRef: Base {
    ghost use Rattle.std.specs.Prelude.{Option};
    ghost use Rattle.git_objects.specs.Paths.{Bytes};

    /// The ref that is pushed to.
    ghost refname: { Self → Bytes };

    /// The projected commit, where there is one.
    ghost from: { Self → Option Bytes };

    fn refname(&self) -> &RefName
        ensures { result.now ≡ refname self.now };

    fn from(&self) -> Option<Name>
        ensures { option_map name_bytes result ≡ from self.now };
}

/// A push, by what it makes of its commands.
pub trait Pushed: OnRef {
    ghost use Rattle.fast_import.specs.Replays.{Base as BaseOf};
    ghost use Rattle.push_back.specs.Waited.{PushStep};

    /// The store has all that it stands upon.
    ghost stands: { List Object → Self → Type 0 };

    /// What it stands upon.
    ghost upon: { List Object → Self → BaseOf };

    /// What it makes of one command.
    ghost one: { List Object → Self → PushStep };

    /// Carries out a command that a reader gave behind those before it, none of which was refused.
    fn push_on(
        &self,
        replay: &mut Replay,
        store: &mut Store,
        placed: Placed,
    ) -> Result<(), PushError>
        requires base { stands store.old self.now }
        requires so_far { (r : ReplayOf) × IsReplayOf store.old replay.old r }
        requires replayable { is_replayable placed.command ≡ true }
        ensures stepped { (r : ReplayOf) → IsReplayOf store.old replay.old r →
            IsTriedBy (one store.old self.now r placed) store.old store.new replay.new r placed result }
        ensures read { ¬ IsErrOf result PushError.ReadFault };
}

impl OnRef for PushBase {
    ghost refname = { λ g. g.refname };

    ghost from = { λ g. from_of g };

    fn refname(&self) -> &RefName {
        self.ref_name()
    }

    fn from(&self) -> Option<Name> {
        self.projected()
    }
}

impl Pushed for PushBase {
    ghost stands = { IsGroundIn };

    ghost upon = { push_base_in };

    ghost one = { step_in };

    fn push_on(
        &self,
        replay: &mut Replay,
        store: &mut Store,
        placed: Placed,
    ) -> Result<(), PushError> {
        store_law(store);
        match judged(replay, self, &placed) {
            Err(error) => return Err(error),
            Ok(()) => {}
        }
        match replay.step(self, store, placed) {
            Err(fault) => Err(PushError::Stream(fault)),
            Ok(()) => Ok(()),
        }
    }
}

// Whether the push itself refuses a command.
fn judged(replay: &Replay, base: &PushBase, placed: &Placed) -> Result<(), PushError>
    ensures judged { IsJudged replay.now base.now placed.now result }
    ensures read { ¬ IsErrOf result PushError.ReadFault }
{
    match &placed.command {
        Command::Commit(head) => commit_judged(replay, base, placed.at, head),
        Command::Reset { refname, from: _ } => {
            if refname == base.refname() {
                Ok(())
            } else {
                Err(PushError::OtherRef { at: placed.at })
            }
        }
        Command::Blob { .. }
        | Command::Change(_)
        | Command::CommitEnd
        | Command::Tag(_)
        | Command::Done => Ok(()),
    }
}

// Whether the push refuses a commit: for its ref, its parent, or a further parent.
fn commit_judged(
    replay: &Replay,
    base: &PushBase,
    at: u64,
    head: &CommitHead,
) -> Result<(), PushError>
    ensures judged { IsJudged replay.now base.now (record { at = at; command = Command.Commit head.now }) result }
    ensures read { ¬ IsErrOf result PushError.ReadFault }
{
    match head_judged(replay, base, at, head) {
        Err(error) => return Err(error),
        Ok(()) => {}
    }
    if !head.merges.refs().is_empty() {
        return Err(PushError::FurtherParents {
            n: replay.commit_count() + 1,
        });
    }
    Ok(())
}

/// Whether a push refuses a commit for its ref or its first parent, in this order.
pub fn head_judged<P: OnRef>(
    replay: &Replay,
    base: &P,
    at: u64,
    head: &CommitHead,
) -> Result<(), PushError>
    ensures passed { OnOk result ((S : List Object) (r : ReplayOf) → IsReplayOf S replay.now r →
        IsAtHead (base_in S (P.commits base.now) (P.refs base.now) (P.blobs base.now))
        (P.refname base.now) (P.from base.now) r head.now) }
    ensures refused { IfErr result (λ e. (S : List Object) (r : ReplayOf) → IsReplayOf S replay.now r →
        IsOffHead (base_in S (P.commits base.now) (P.refs base.now) (P.blobs base.now))
        (P.refname base.now) (P.from base.now) r at head.now e) }
    ensures read { ¬ IsErrOf result PushError.ReadFault }
{
    if head.refname != *base.refname() {
        return Err(PushError::OtherRef { at });
    }
    let first = match replay.parent(base, head) {
        Err(fault) => return Err(PushError::Stream(fault)),
        Ok(first) => first,
    };
    let expected = chain_end(replay, base);
    if !is_same_name(expected, first) {
        return Err(PushError::NotAtHead {
            expected,
            got: first,
        });
    }
    Ok(())
}

/// Whether the push refuses its end: its ref, where it is set, is to be at the commit pushed last.
pub fn end_judged<P: OnRef>(replay: &Replay, base: &P) -> Result<(), PushError>
    ensures judged { IsEndJudged replay.now (P.refname base.now) (P.from base.now) result }
    ensures read { ¬ IsErrOf result PushError.ReadFault }
{
    let expected = chain_end(replay, base);
    let got = replay.branch(base.refname());
    let at_end = match got {
        None => replay.commit_count() == 0,
        Some(_) => is_same_name(expected, got),
    };
    if at_end {
        Ok(())
    } else {
        Err(PushError::NotAtHead { expected, got })
    }
}

/// The commit pushed last, and before the first one the projection, where there is one.
pub fn chain_end<P: OnRef>(replay: &Replay, base: &P) -> Option<Name>
    ensures { (S : List Object) (r : ReplayOf) → IsReplayOf S replay.now r →
        option_map name_bytes result ≡ chain_end (P.from base.now) r }
{
    match replay.last_commit() {
        None => base.from(),
        Some(name) => Some(name),
    }
}

fn is_same_name(a: Option<Name>, b: Option<Name>) -> bool
    ensures { result ≡ is_same_name (option_map name_bytes a) (option_map name_bytes b) }
{
    match (a, b) {
        (None, None) => true,
        (Some(m), Some(n)) => m == n,
        _ => false,
    }
}
