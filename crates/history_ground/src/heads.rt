// What is shown of a commit, from scratch.
ghost use Rattle.std.specs.Prelude.{◌≡◌, true, IfErr, IfOk, IsSome};
ghost use Rattle.git_objects.specs.Snapshots.{tree_at};
ghost use Rattle.git_objects.specs.declared.kind.Kind.TheVariants.{Tree};
ghost use Rattle.commit_graph.specs.Graphs.{place_of};
ghost use Rattle.filter_apply.specs.Faults.{IsApplyFault};
ghost use Rattle.filter_text.specs.Shapes.{shape};
ghost use Rattle.projection_ground.specs.Asked.{IsAskedFor};
ghost use Rattle.projection_ground.specs.Grounds.{Extends, IsGround, IsShownOf, commits_of};
ghost use Rattle.projection_ground.specs.TrueMaps.{IsTrueMap};
ghost use Rattle.history_ground.specs.TrueWalks.{IsTrueWalk};
ghost use Rattle.object_store.specs.Objects.{has};
ghost use Rattle.object_store.specs.Unfolding.{flat, StandsFor};
ghost use Rattle.history_ground.specs.Heads.{IsSeen, IsSeenObject};
ghost use Rattle.workspace.specs.Laws.{IsUsable};
ghost use Rattle.workspace.specs.Workspaces.{shown};

use crate::making::made_to;
use filter_apply::ApplyError;
use filter_text::Filter;
use git_objects::Name;
use projection_ground::{Asked, Ground, seen};
use std::alloc::Global;
use std::mem;

/// What is shown of a commit.
#[derive(Clone, Copy, Debug)]
pub struct Seen {
    /// The commit that it is projected to, where there is one.
    pub from: Option<Name>,
    /// The tree, which may be empty.
    pub tree: Name,
}

/// What is shown by a filter of the commit of that name, which is in the graph: its projection, from scratch, and the
/// tree. Both are put into the store, the projection with its history; the kept projections are neither asked nor
/// changed. The ground's true maps remember what is found out on the way, for the next question (no clause says so).
pub fn seen_head(
    alloc: Global,
    ground: &mut Ground,
    filter: &Filter,
    head: &Name,
) -> Result<Seen, ApplyError>
    requires usable { IsUsable (shape filter.now) }
    requires ground { IsGround ground.old }
    requires head { IsSome (place_of head.now.0 ground.old.graph) }
    ensures ok { IfOk result (IsSeen (shape filter.now) ground.old head.now.0 ground.new.store) }
    ensures map { ground.new.map ≡ ground.old.map }
    ensures same { Extends (IsSeenObject (shape filter.now) ground.old head.now.0) ground.old ground.new }
    ensures err { IfErr result (IsApplyFault (IsSeenObject (shape filter.now) ground.old head.now.0) ground.new.store) }
{
    let rule = ground.rule;
    let known = ground.true_maps.take(filter, rule);
    let kept = mem::replace(&mut ground.map, known);
    let result = shown_upon(alloc, ground, filter, head);
    let known = mem::replace(&mut ground.map, kept);
    ground.true_maps.put(filter, rule, known);
    result
}

// The same, over a ground whose map has projections from scratch. It gets more of them.
fn shown_upon(
    alloc: Global,
    ground: &mut Ground,
    filter: &Filter,
    head: &Name,
) -> Result<Seen, ApplyError>
    requires usable { IsUsable (shape filter.now) }
    requires ground { IsGround ground.old }
    requires map { IsTrueMap ground.old.store (commits_of ground.old) ground.old.rule (shape filter.now)
        ground.old.map }
    requires head { IsSome (place_of head.now.0 ground.old.graph) }
    ensures ok { IfOk result (IsSeen (shape filter.now) ground.old head.now.0 ground.new.store) }
    ensures walked { IsTrueWalk (shape filter.now) head.now.0 ground.old ground.new }
    ensures err { IfErr result (IsApplyFault (IsSeenObject (shape filter.now) ground.old head.now.0) ground.new.store) }
{
    let (tree, mut asked) = shown_first(alloc, ground, filter, head)?;
    let Some(shown) = made_to(alloc, ground, filter, &mut asked, head)? else {
        return Ok(Seen { from: None, tree });
    };
    Ok(Seen {
        from: Some(shown.commit),
        tree,
    })
}

/// The tree of the commit of that name, which is in the graph.
pub fn commit_tree(ground: &Ground, head: &Name) -> Name
    requires ground { IsGround ground.now }
    requires head { IsSome (place_of head.now.0 ground.now.graph) }
    ensures held { has Tree ground.now.store result.0 ≡ true }
    ensures tree { flat ground.now.store result.0 ≡ tree_at (commits_of ground.now) head.now.0 }
{
    let Some(place) = ground.graph.index_of(head) else {
        unreachable!()
    };
    ground.graph.tree(place)
}

/// The tree that a filter shows of the commit of that name, which is in the graph, put into the store. Nothing is
/// projected; the kept projections are neither asked nor changed.
pub fn shown_tree(
    alloc: Global,
    ground: &mut Ground,
    filter: &Filter,
    head: &Name,
) -> Result<Name, ApplyError>
    requires usable { IsUsable (shape filter.now) }
    requires ground { IsGround ground.old }
    requires head { IsSome (place_of head.now.0 ground.old.graph) }
    ensures ok { IfOk result (λ n.
        StandsFor ground.new.store n.0 (shown (shape filter.now) (tree_at (commits_of ground.old) head.now.0))) }
    ensures map { ground.new.map ≡ ground.old.map }
    ensures same { Extends (IsShownOf (shape filter.now) (commits_of ground.old)) ground.old ground.new }
    ensures err { IfErr result (IsApplyFault (IsShownOf (shape filter.now) (commits_of ground.old)) ground.new.store) }
{
    let (tree, _) = shown_first(alloc, ground, filter, head)?;
    Ok(tree)
}

// The tree that a filter shows of the commit of that name, put into the store, and what is known of the filter then.
fn shown_first(
    alloc: Global,
    ground: &mut Ground,
    filter: &Filter,
    head: &Name,
) -> Result<(Name, Asked), ApplyError>
    requires usable { IsUsable (shape filter.now) }
    requires ground { IsGround ground.old }
    requires head { IsSome (place_of head.now.0 ground.old.graph) }
    ensures ok { IfOk result (λ p.
        StandsFor ground.new.store p.0.0 (shown (shape filter.now) (tree_at (commits_of ground.old) head.now.0))) }
    ensures asked { IfOk result (λ p. IsAskedFor (shape filter.now) ground.new p.1) }
    ensures map { ground.new.map ≡ ground.old.map }
    ensures same { Extends (IsShownOf (shape filter.now) (commits_of ground.old)) ground.old ground.new }
    ensures err { IfErr result (IsApplyFault (IsShownOf (shape filter.now) (commits_of ground.old)) ground.new.store) }
{
    let Some(place) = ground.graph.index_of(head) else {
        unreachable!()
    };
    let root = ground.graph.tree(place);
    let mut asked = Asked::new(alloc, ground, filter, root)?;
    let tree = seen(alloc, ground, filter, &mut asked, root)?;
    Ok((tree, asked))
}
