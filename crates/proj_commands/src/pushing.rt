// Taking a push back.
ghost use Rattle.std.specs.Prelude.{◌≡◌, ◌≢◌, ◌↔◌, List, Err, None, map, true, IfOk, IfSome, IsSome};
ghost use Rattle.std.specs.Prelude.{Some};
ghost use Rattle.std.specs.FinMap.{find};
ghost use Rattle.git_objects.specs.Paths.{Bytes, is_bytes};
ghost use Rattle.git_objects.specs.Refs.{bytes_cmp};
ghost use Rattle.commit_graph.specs.Graphs.{place_of};
ghost use Rattle.filter_text.specs.Shapes.{shape};
ghost use Rattle.fast_import.specs.Waited.{TakesWithin};
ghost use Rattle.proj_io.specs.Counts.{Counts};
ghost use Rattle.proj_io.specs.Stops.{OnlyAdds};
ghost use Rattle.proj_io.specs.Uses.{IsUsed};
ghost use Rattle.proj_io.specs.Views.{keeper_view};
ghost use Rattle.ref_store.specs.Refs.{head_of};
ghost use Rattle.repo_ground.specs.Changes.{IsStopOf};
ghost use Rattle.state_items.specs.Changes.{Plan};
ghost use Rattle.state_items.specs.Items.{Held};
ghost use Rattle.workspace.specs.Laws.{IsUsable};
ghost use Rattle.proj_commands.specs.Push.{push_case};
ghost use Rattle.proj_commands.specs.Intake.{TakesUpTo, pushed_to};
ghost use Rattle.proj_commands.specs.Makes.{IsMadeOf, IsState, IsStateOf};
ghost use Rattle.proj_commands.specs.Pushing.{IsPlannedUpon, IsPushPrepared};

use crate::lines::{Telling, pairs_report};
use crate::refusals::{commit_outcome, fault_outcome, merge_outcome};
use fast_import::Setting;
use filter_text::Filter;
use git_objects::{Bytes, Name};
use merge_push::plan_merges;
use path_names::RefName;
use proj_io::{Keeper, Source};
use proj_words::Outcome;
use push_back::{Pair, Plan as Pushed, plan};
use repo_ground::{Batch, State};
use std::alloc::{AllocError, Global};

/// How the commits of a push may stand.
#[derive(Clone, Copy)]
pub enum Manner {
    /// Each upon the one before it, the first upon the projection of the ref's commit.
    InLine,
    /// So, and behind that parent others: projections of commits that are held, and commits that were pushed before.
    Merging,
}

// Works out what a push of commits in line brings to a state, in its store.
fn planned_in_line<S: Source>(
    alloc: Global,
    state: &mut State,
    input: &mut S,
    filter: &Filter,
    refname: &RefName,
    head: &Name,
) -> Result<Pushed, Outcome>
    requires usable { IsUsable (shape filter.now) }
    requires state { IsState state.old }
    requires head { IsSome (place_of head.now.0 state.old.basis.graph) }
    ensures planned { (items : List Bytes) (h : Held) → IsStateOf items h state.old →
        (all : Bytes) × (is_bytes all ≡ true) × IfSome (S.left input.old) (λ l. all ≡ l) ×
        IsPlannedUpon Manner.InLine items h (shape filter.now) refname.now head.now.0 all state.old state.new result }
    ensures taken { (items : List Bytes) (h : Held) → IsStateOf items h state.old →
        TakesUpTo (pushed_to Manner.InLine h (shape filter.now) refname.now head.now.0) (S.left input.old)
        (S.left input.new) }
    ensures within { TakesWithin (S.left input.old) (S.left input.new) }
    ensures early { (result ≢ Err Outcome.WriteFault) × (result ≢ Err Outcome.StoreFault) }
    ensures told { S.tells input.new ↔ S.tells input.old }
    ensures read { Counts (S.faults input.old) (S.faults input.new) (result ≡ Err Outcome.ReadFault) }
{
    match plan(alloc, &mut state.ground, filter, refname, head, input) {
        Ok(plan) => Ok(plan),
        Err(fault) => Err(fault_outcome(fault)),
    }
}

// Works out what a push that may merge brings to a state, in its store.
fn planned_merging<S: Source>(
    alloc: Global,
    state: &mut State,
    input: &mut S,
    filter: &Filter,
    refname: &RefName,
    head: &Name,
) -> Result<Pushed, Outcome>
    requires usable { IsUsable (shape filter.now) }
    requires state { IsState state.old }
    requires head { IsSome (place_of head.now.0 state.old.basis.graph) }
    ensures planned { (items : List Bytes) (h : Held) → IsStateOf items h state.old →
        (all : Bytes) × (is_bytes all ≡ true) × IfSome (S.left input.old) (λ l. all ≡ l) ×
        IsPlannedUpon Manner.Merging items h (shape filter.now) refname.now head.now.0 all state.old state.new result }
    ensures taken { (items : List Bytes) (h : Held) → IsStateOf items h state.old →
        TakesUpTo (pushed_to Manner.Merging h (shape filter.now) refname.now head.now.0) (S.left input.old)
        (S.left input.new) }
    ensures within { TakesWithin (S.left input.old) (S.left input.new) }
    ensures early { (result ≢ Err Outcome.WriteFault) × (result ≢ Err Outcome.StoreFault) }
    ensures told { S.tells input.new ↔ S.tells input.old }
    ensures read { Counts (S.faults input.old) (S.faults input.new) (result ≡ Err Outcome.ReadFault) }
{
    match plan_merges(alloc, &mut state.ground, filter, refname, head, input) {
        Ok(plan) => Ok(plan),
        Err(fault) => Err(merge_outcome(fault)),
    }
}

// Works out what a push brings to a state, in its store.
fn planned_upon<S: Source>(
    alloc: Global,
    state: &mut State,
    input: &mut S,
    filter: &Filter,
    refname: &RefName,
    head: &Name,
    manner: Manner,
) -> Result<Pushed, Outcome>
    requires usable { IsUsable (shape filter.now) }
    requires state { IsState state.old }
    requires head { IsSome (place_of head.now.0 state.old.basis.graph) }
    ensures planned { (items : List Bytes) (h : Held) → IsStateOf items h state.old →
        (all : Bytes) × (is_bytes all ≡ true) × IfSome (S.left input.old) (λ l. all ≡ l) ×
        IsPlannedUpon manner items h (shape filter.now) refname.now head.now.0 all state.old state.new result }
    ensures taken { (items : List Bytes) (h : Held) → IsStateOf items h state.old →
        TakesUpTo (pushed_to manner h (shape filter.now) refname.now head.now.0) (S.left input.old)
        (S.left input.new) }
    ensures within { TakesWithin (S.left input.old) (S.left input.new) }
    ensures early { (result ≢ Err Outcome.WriteFault) × (result ≢ Err Outcome.StoreFault) }
    ensures told { S.tells input.new ↔ S.tells input.old }
    ensures read { Counts (S.faults input.old) (S.faults input.new) (result ≡ Err Outcome.ReadFault) }
{
    match manner {
        Manner::InLine => planned_in_line(alloc, state, input, filter, refname, head),
        Manner::Merging => planned_merging(alloc, state, input, filter, refname, head),
    }
}

// The names of originals.
fn original_names(alloc: Global, pairs: &[Pair]) -> Result<Vec<Name>, AllocError>
    ensures { IfOk result (λ names. names.items ≡ map (λ c. c.original) pairs.now) }
{
    let mut names = Vec::new(alloc);
    for pair in pairs {
        names.push(pair.original)?;
    }
    Ok(names)
}

// The report of a push, and what is to be committed, with its ref at the last original.
fn push_prepared(
    alloc: Global,
    plan: Pushed,
    refname: &RefName,
    last: Name,
    telling: Telling,
) -> Result<(Bytes, Batch), AllocError>
    ensures { IfOk result (λ x. IsPushPrepared telling plan refname.now last.0 x.0 x.1) }
{
    let report = pairs_report(alloc, &plan.commits, telling)?;
    let commits = original_names(alloc, &plan.commits)?;
    let mut refs = Vec::new(alloc);
    refs.push(Setting {
        refname: refname.copy(alloc)?,
        head: last,
    })?;
    let Pushed { blobs, commits: _ } = plan;
    let batch = Batch {
        blobs,
        commits,
        refs,
    };
    Ok((Bytes::of(report), batch))
}

/// Replays a stream of commits, which stand in this manner, upon the projection of a ref's commit, and commits their
/// originals, with the ref at the last. The report has the name of each pushed commit, and its original's where that
/// is told.
pub fn push<S: Source, K: Keeper>(
    alloc: Global,
    state: &mut State,
    input: &mut S,
    store: &mut K,
    filter: &Filter,
    refname: &RefName,
    manner: Manner,
    telling: Telling,
) -> Result<Bytes, Outcome>
    requires open { K.is_open store.old × (state.old.number ≡ K.number store.old) }
    requires usable { IsUsable (shape filter.now) }
    requires state { IsState state.old }
    ensures made { let seen = keeper_view K.items K.number K.faults in
        (items : List Bytes) (h : Held) → IsStateOf items h state.old →
        (all : Bytes) × IfSome (S.left input.old) (λ l. all ≡ l) × (p : Plan) ×
        IsMadeOf (push_case manner telling h (shape filter.now) refname.now all) items h
        state.old state.new (seen store.old) (seen store.new) p result ×
        OnlyAdds (K.moment store.old) (K.moment store.new) (K.left_since store.old) (K.left_since store.new)
        (IsStopOf h state.old p (K.items store.old)) }
    ensures taken { (items : List Bytes) (h : Held) (n : Bytes) → IsStateOf items h state.old →
        find bytes_cmp refname.now h.refs ≡ Some n →
        TakesUpTo (pushed_to manner h (shape filter.now) refname.now n) (S.left input.old) (S.left input.new) }
    ensures within { TakesWithin (S.left input.old) (S.left input.new) }
    // Where there is no such ref nothing is read.
    ensures headless { head_of state.old.refs refname.now ≡ None → input.new ≡ input.old }
    ensures early { result ≢ Err Outcome.WriteFault }
    ensures read { Counts (S.faults input.old) (S.faults input.new) (result ≡ Err Outcome.ReadFault) }
    ensures used { IsUsed K.faults K.is_open K.tells store.old store.new (result ≡ Err Outcome.StoreFault) }
{
    let Some(head) = state.head(refname) else {
        return Err(Outcome::UnknownRef);
    };
    let plan = planned_upon(alloc, state, input, filter, refname, &head, manner)?;
    let Some(last) = plan.commits.last().copied() else {
        // Nothing was pushed.
        return Ok(Bytes::of(Vec::new(alloc)));
    };
    let Ok((report, batch)) = push_prepared(alloc, plan, refname, last.original, telling) else {
        return Err(Outcome::OutOfMemory);
    };
    match state.commit(store, batch) {
        Ok(()) => Ok(report),
        Err(error) => Err(commit_outcome(error)),
    }
}
