// What a push with merges brings.
ghost use Rattle.std.specs.Prelude.{◌↔◌, ◌≡◌, ◌≤◌, List, length, true, IfErr, IfOk, IfSome, IsErrOf};
ghost use Rattle.std.specs.Prelude.{IsSome};
ghost use Rattle.git_objects.specs.Paths.{Bytes, is_bytes};
ghost use Rattle.git_objects.specs.Snapshots.{Snapshot};
ghost use Rattle.git_objects.specs.declared.kind.Kind.TheVariants.{Tree};
ghost use Rattle.git_objects.specs.declared.limits.TheConstants.{STREAM_BYTES};
ghost use Rattle.object_store.specs.Objects.{has};
ghost use Rattle.object_store.specs.StoredSnapshots.{IsTreeOf};
ghost use Rattle.commit_graph.specs.Graphs.{place_of};
ghost use Rattle.filter_text.specs.Shapes.{shape};
ghost use Rattle.proj_io.specs.Counts.{Counts};
ghost use Rattle.filter_apply.specs.Faults.{IsApplyFault};
ghost use Rattle.fast_import.specs.Waited.{TakesWithin};
ghost use Rattle.projection_ground.specs.Grounds.{Extends, IsGround};
ghost use Rattle.history_ground.specs.Origins.{AreFirsts};
ghost use Rattle.push_back.specs.Waited.{IsTakenTo};
ghost use Rattle.workspace.specs.Laws.{IsUsable};
ghost use Rattle.merge_push.specs.Bringing.{IsBaseObject, IsBroughtBy, IsMergeBaseOf, IsPushBaseOf};
ghost use Rattle.merge_push.specs.Originals.{ArePushed, IsMadeOver};
ghost use Rattle.merge_push.specs.Planning.{IsMergePlanned, IsPlannedAs};
ghost use Rattle.merge_push.specs.Waited.{merges_waited};

use crate::commits::originals;
use crate::{MergeBase, MergeFault, replay_merges};
use fast_import::Replayed;
use filter_apply::ApplyError;
use filter_text::Filter;
use git_objects::Name;
use history_ground::{Origins, Seen, seen_head};
use merge_laws::{joined_law, merge_given_law};
use object_store::Store;
use path_names::RefName;
use proj_io::Source;
use projection_ground::Ground;
use push_back::{Plan, PushBase, PushFault, pairs};
use std::alloc::{AllocError, Global};

/// Replays a stream that is pushed to a ref, which is at the commit `head`, through a filter, and works out the
/// originals of its commits, which may merge projections of other commits of the graph, and commits that were pushed
/// before. All commits of the graph are projected from scratch, as far as the ground's true maps don't know it, and put
/// into the store; so are the pushed commits and their originals. The graph and the kept projections stay.
pub fn plan_merges<S: Source>(
    alloc: Global,
    ground: &mut Ground,
    filter: &Filter,
    refname: &RefName,
    head: &Name,
    input: &mut S,
) -> Result<Plan, MergeFault>
    requires usable { IsUsable (shape filter.now) }
    requires ground { IsGround ground.old }
    requires head { IsSome (place_of head.now.0 ground.old.graph) }
    ensures planned { (all : Bytes) × (is_bytes all ≡ true) × IfSome (S.left input.old) (λ bytes. bytes ≡ all) ×
        IsMergePlanned (shape filter.now) refname.now head.now.0 all ground.old ground.new result }
    ensures taken { IsTakenTo (merges_waited (shape filter.now) ground.old refname.now head.now.0) (S.left input.old)
        (S.left input.new) result }
    ensures within { TakesWithin (S.left input.old) (S.left input.new) }
    ensures told { S.tells input.new ↔ S.tells input.old }
    ensures cause { Counts (S.faults input.old) (S.faults input.new) (IsErrOf result MergeFault.ReadFault) }
{
    match planned(alloc, ground, filter, refname, head, input) {
        Ok(plan) => Ok(plan),
        Err(fault) => Err(MergeFault::from(fault)),
    }
}

// The same, with its faults as those of any push.
fn planned<S: Source>(
    alloc: Global,
    ground: &mut Ground,
    filter: &Filter,
    refname: &RefName,
    head: &Name,
    input: &mut S,
) -> Result<Plan, PushFault>
    requires usable { IsUsable (shape filter.now) }
    requires ground { IsGround ground.old }
    requires head { IsSome (place_of head.now.0 ground.old.graph) }
    ensures planned { (all : Bytes) × (is_bytes all ≡ true) × IfSome (S.left input.old) (λ bytes. bytes ≡ all) ×
        IsPlannedAs (shape filter.now) refname.now head.now.0 all ground.old ground.new result }
    ensures taken { IsTakenTo (merges_waited (shape filter.now) ground.old refname.now head.now.0) (S.left input.old)
        (S.left input.new) result }
    ensures within { TakesWithin (S.left input.old) (S.left input.new) }
    ensures told { S.tells input.new ↔ S.tells input.old }
    ensures cause { Counts (S.faults input.old) (S.faults input.new) (IsErrOf result PushFault.ReadFault) }
{
    joined_law();
    merge_given_law();
    let base = match base_of(alloc, ground, filter, refname, head) {
        Err(error) => return Err(PushFault::from(error)),
        Ok(base) => base,
    };
    let replayed = match replay_merges(alloc, input, &base, &mut ground.store) {
        Err(error) => return Err(PushFault::from(error)),
        Ok(replayed) => replayed,
    };
    brought(alloc, ground, filter, head, base.origins(), replayed)
}

// What a stream that is pushed to a ref stands upon: what is shown of the commit `head`, and the projections of all
// commits of the graph. All of it is put into the store.
fn base_of(
    alloc: Global,
    ground: &mut Ground,
    filter: &Filter,
    refname: &RefName,
    head: &Name,
) -> Result<MergeBase, ApplyError>
    requires usable { IsUsable (shape filter.now) }
    requires ground { IsGround ground.old }
    requires head { IsSome (place_of head.now.0 ground.old.graph) }
    ensures ok { IfOk result
        (IsMergeBaseOf (shape filter.now) refname.now head.now.0 ground.old ground.new.store) }
    ensures map { ground.new.map ≡ ground.old.map }
    ensures same { Extends (IsBaseObject (shape filter.now) ground.old head.now.0) ground.old ground.new }
    ensures err { IfErr result
        (IsApplyFault (IsBaseObject (shape filter.now) ground.old head.now.0) ground.new.store) }
{
    let seen = seen_head(alloc, ground, filter, head)?;
    let origins = Origins::of(alloc, ground, filter)?;
    let push = push_base(alloc, &ground.store, refname, seen)?;
    Ok(MergeBase::new(push, origins))
}

// What the stream stands upon without the other projections.
fn push_base(
    alloc: Global,
    store: &Store,
    refname: &RefName,
    seen: Seen,
) -> Result<PushBase, AllocError>
    requires tree { has Tree store.now seen.tree.0 ≡ true }
    requires there { IfSome seen.from (λ n. IsTreeOf store.now n.0 seen.tree.0) }
    ensures { IfOk result (IsPushBaseOf refname.now seen store.now) }
{
    let refname = refname.copy(alloc)?;
    PushBase::new(alloc, store, refname, seen.from, seen.tree)
}

// What a stream brings that was replayed: its blobs, and its commits with their originals.
fn brought(
    alloc: Global,
    ground: &mut Ground,
    filter: &Filter,
    head: &Name,
    origins: &Origins,
    replayed: Replayed,
) -> Result<Plan, PushFault>
    requires usable { IsUsable (shape filter.now) }
    requires ground { IsGround ground.old }
    requires head { IsSome (place_of head.now.0 ground.old.graph) }
    requires origins { AreFirsts (shape filter.now) ground.old ground.old.store origins.now }
    requires commits { (cs : List Snapshot) × ArePushed (shape filter.now) ground.old head.now.0
        replayed.commits.items cs }
    requires few { length replayed.commits.items ≤ STREAM_BYTES }
    ensures brought { (cs : List Snapshot) → ArePushed (shape filter.now) ground.old head.now.0
        replayed.commits.items cs →
        IsBroughtBy (shape filter.now) ground.old head.now.0 cs replayed ground.new.store result }
    ensures same { (cs : List Snapshot) → ArePushed (shape filter.now) ground.old head.now.0 replayed.commits.items cs
        → Extends (IsMadeOver (shape filter.now) ground.old head.now.0 cs) ground.old ground.new }
    ensures map { ground.new.map ≡ ground.old.map }
{
    let names = match originals(alloc, ground, filter, head, origins, &replayed.commits) {
        Err(error) => return Err(PushFault::from(error)),
        Ok(names) => names,
    };
    let commits = pairs(alloc, &replayed.commits, &names)?;
    Ok(Plan {
        blobs: replayed.blobs,
        commits,
    })
}
