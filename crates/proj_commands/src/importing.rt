// What a stream brings to the store.
ghost use Rattle.std.specs.Prelude.{◌≡◌, ◌≢◌, ◌⊎◌, ◌++◌, List, Err, None};
ghost use Rattle.std.specs.Prelude.{Ok, reverse, true, IfOk, IfSome, MatchResult};
ghost use Rattle.git_objects.specs.Paths.{Bytes};
ghost use Rattle.git_objects.specs.Snapshots.{Snapshot};
ghost use Rattle.projection_ground.specs.Grounds.{IsGround};
ghost use Rattle.fast_import.specs.Waited.{TakesWithin};
ghost use Rattle.proj_io.specs.Counts.{Counts};
ghost use Rattle.proj_io.specs.Stops.{OnlyAdds};
ghost use Rattle.proj_io.specs.Uses.{IsUsed};
ghost use Rattle.proj_io.specs.Views.{keeper_view};
ghost use Rattle.repo_ground.specs.Changes.{IsBatchOf, IsStopOf, settings_of};
ghost use Rattle.import_laws.specs.Bases.{base_of};
ghost use Rattle.state_items.specs.Changes.{Plan};
ghost use Rattle.state_items.specs.Items.{Held};
ghost use Rattle.state_items.specs.Repos.{repo};
ghost use Rattle.repo_ground.specs.Contents.{Spells};
ghost use Rattle.tag_objects.specs.TagLists.{rise};
ghost use Rattle.proj_commands.specs.Cases.{ImportCase};
ghost use Rattle.proj_commands.specs.Import.{all_forward, all_free, tagged_ran};
ghost use Rattle.proj_commands.specs.Intake.{TakesUpTo, tagged_waited};
ghost use Rattle.proj_commands.specs.Makes.{IsMadeOf, IsState, IsStateOf};
ghost use Rattle.proj_commands.specs.Replaying.{IsPrepared};

use crate::lines::refs_report;
use crate::naming::commit_names;
use crate::refusals::{commit_outcome, replay_outcome};
use fast_import::{Replayed, TaggedReplay, replay_tagged, replayed_tags_law};
use git_objects::Bytes;
use proj_io::{Keeper, Source};
use proj_words::Outcome;
use repo_ground::{Backward, Batch, State, StateView};
use state_items::first_taken;
use std::alloc::{AllocError, Global};
use tag_objects::Tag;

// The report of what a stream gives, and what is to be committed.
fn prepared(alloc: Global, replayed: Replayed) -> Result<(Bytes, Batch), AllocError>
    ensures { IfOk result (λ x. IsPrepared replayed x.0 x.1) }
{
    let report = refs_report(alloc, &replayed.heads)?;
    let commits = commit_names(alloc, &replayed.commits)?;
    let Replayed {
        blobs,
        commits: _,
        heads,
    } = replayed;
    let batch = Batch {
        blobs,
        commits,
        refs: heads,
    };
    Ok((Bytes::of(report), batch))
}

// The refusal of a ref that would move elsewhere than forward.
fn backward(first: Backward) -> Outcome
    ensures { result ≡ Outcome.NotForward first.refname first.old_commit first.new_commit }
{
    Outcome::NotForward {
        refname: first.refname,
        old: first.old_commit,
        new: first.new_commit,
    }
}

// Unless `force`, each ref of a batch that is there has to move forward.
fn all_forward(state: &mut State, batch: &Batch, force: bool) -> Result<(), Outcome>
    requires ground { IsGround state.old.basis }
    requires batch { (h : Held) × (blobs : List Bytes) × (cs : List Snapshot) ×
        IsBatchOf h state.old batch.now blobs cs }
    ensures forward { (h : Held) (blobs : List Bytes) (cs : List Snapshot) →
        IsBatchOf h state.old batch.now blobs cs →
        let asked = all_forward force (reverse cs ++ (repo h).commits) h.refs (settings_of batch.now) in
        MatchResult result (λ _. asked ≡ Ok tt) (λ e. (e ≡ Outcome.OutOfMemory) ⊎ (asked ≡ Err e)) }
    ensures same { state.new ≡ state.old }
    ensures early { (result ≢ Err Outcome.ReadFault) × (result ≢ Err Outcome.WriteFault) ×
        (result ≢ Err Outcome.StoreFault) }
{
    if force {
        return Ok(());
    }
    match state.first_backward(batch) {
        Err(_) => Err(Outcome::OutOfMemory),
        Ok(None) => Ok(()),
        Ok(Some(first)) => Err(backward(first)),
    }
}

// Unless `force`, no tag that is read has the name of another one of the state.
fn all_free(alloc: Global, state: &State, tags: &[Tag], force: bool) -> Result<(), Outcome>
    requires held { rise None state.now.tags ≡ true }
    requires tags { rise None tags.now ≡ true }
    ensures free { (h : Held) → Spells h state.now → let asked = all_free force h.tags tags.now in
        MatchResult result (λ _. asked ≡ Ok tt) (λ e. (e ≡ Outcome.OutOfMemory) ⊎ (asked ≡ Err e)) }
    ensures early { (result ≢ Err Outcome.ReadFault) × (result ≢ Err Outcome.WriteFault) ×
        (result ≢ Err Outcome.StoreFault) }
{
    if force {
        return Ok(());
    }
    match first_taken(state.tags(), tags) {
        None => Ok(()),
        Some(tag) => match tag.name.copy(alloc) {
            Ok(tag) => Err(Outcome::TagExists { tag }),
            Err(_) => Err(Outcome::OutOfMemory),
        },
    }
}

/// Replays a stream upon the state and commits what it brings, with its tags. The report has a line for each ref that
/// it sets, in byte order. Unless `force`, a ref that is there may only move forward, and a tag that is there stays.
pub fn import<S: Source, K: Keeper>(
    alloc: Global,
    state: &mut State,
    input: &mut S,
    store: &mut K,
    force: bool,
) -> Result<Bytes, Outcome>
    requires open { K.is_open store.old × (state.old.number ≡ K.number store.old) }
    requires state { IsState state.old }
    ensures made { let seen = keeper_view K.items K.number K.faults in
        (items : List Bytes) (h : Held) → IsStateOf items h state.old →
        (all : Bytes) × IfSome (S.left input.old) (λ l. all ≡ l) × (p : Plan) ×
        IsMadeOf (Ok (ImportCase force h (tagged_ran (base_of h) all))) items h
        state.old state.new (seen store.old) (seen store.new) p result ×
        OnlyAdds (K.moment store.old) (K.moment store.new) (K.left_since store.old) (K.left_since store.new)
        (IsStopOf h state.old p (K.items store.old)) }
    ensures taken { (items : List Bytes) (h : Held) → IsStateOf items h state.old →
        TakesUpTo (tagged_waited (base_of h)) (S.left input.old) (S.left input.new) }
    ensures within { TakesWithin (S.left input.old) (S.left input.new) }
    ensures early { result ≢ Err Outcome.WriteFault }
    ensures read { Counts (S.faults input.old) (S.faults input.new) (result ≡ Err Outcome.ReadFault) }
    ensures used { IsUsed K.faults K.is_open K.tells store.old store.new (result ≡ Err Outcome.StoreFault) }
{
    replayed_tags_law();
    let view = StateView::of(&state.ground.graph, &state.refs, &state.blobs);
    let given = match replay_tagged(alloc, input, &view, &mut state.ground.store) {
        Err(error) => return Err(replay_outcome(error)),
        Ok(given) => given,
    };
    let TaggedReplay { replayed, tags } = given;
    let Ok((report, batch)) = prepared(alloc, replayed) else {
        return Err(Outcome::OutOfMemory);
    };
    all_forward(state, &batch, force)?;
    all_free(alloc, state, &tags, force)?;
    match state.commit_tagged(store, batch, tags) {
        Ok(()) => Ok(report),
        Err(error) => Err(commit_outcome(error)),
    }
}
