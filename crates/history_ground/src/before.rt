// Projections of commits that are a head or an ancestor of it.
ghost use Rattle.std.specs.Prelude.{◌≡◌, ◌<◌, ◌++◌, ◌∷◌, [], length, map, true, All};
ghost use Rattle.std.specs.Prelude.{IfErr, IfOk, IfSome, IsSome, OnOk};
ghost use Rattle.std.specs.List.Sorted.{IsStrictlyIncreasing};
ghost use Rattle.std.specs.Option.{option_map};
ghost use Rattle.git_objects.specs.Lists.{Each};
ghost use Rattle.git_objects.specs.Parts.{name_bytes};
ghost use Rattle.git_objects.specs.declared.kind.Kind.TheVariants.{Commit};
ghost use Rattle.object_store.specs.Objects.{has};
ghost use Rattle.commit_graph.specs.Graphs.{place_of};
ghost use Rattle.filter_apply.specs.Faults.{IsApplyFault};
ghost use Rattle.filter_text.specs.Shapes.{shape};
ghost use Rattle.workspace.specs.Laws.{IsUsable};
ghost use Rattle.projection_ground.specs.Asked.{IsAskedFor};
ghost use Rattle.projection_ground.specs.Grounds.{Extends, IsGround, commits_of};
ghost use Rattle.projection_ground.specs.TrueMaps.{IsTrueMap};
ghost use Rattle.history_ground.specs.Before.{IsSeenAt, IsWalkAt, shown_at, shown_before, stands_at};
ghost use Rattle.history_ground.specs.Heads.{IsSeenObject};
ghost use Rattle.history_ground.specs.TrueWalks.{IsTrueWalk};

use crate::making::made_to;
use filter_apply::ApplyError;
use filter_text::Filter;
use git_objects::Name;
use projection_ground::{Asked, Ground};
use std::alloc::{AllocError, Global};
use std::mem;

/// What each of these commits is projected to by a filter, from scratch, where it is the head or an ancestor of it; and
/// for each other that there is nothing. The head is in the graph, the commits needn't be. The projections are put into
/// the store, with their histories; the kept ones are neither asked nor changed. Of the ground's true maps it asks what
/// is there, and adds what is new. It takes one pass over the graph, and a look-up for each commit.
pub fn shown_before(
    alloc: Global,
    ground: &mut Ground,
    filter: &Filter,
    head: &Name,
    commits: &[Name],
) -> Result<Vec<Option<Name>>, ApplyError>
    requires usable { IsUsable (shape filter.now) }
    requires ground { IsGround ground.old }
    requires head { IsSome (place_of head.now.0 ground.old.graph) }
    ensures ok { IfOk result (λ v. map (option_map name_bytes) v.items
        ≡ map (λ n. shown_before (shape filter.now) ground.old head.now.0 n.0) commits.now) }
    ensures there { IfOk result (λ v. Each (λ o. IfSome o (λ n. has Commit ground.new.store n.0 ≡ true)) v.items) }
    ensures map { ground.new.map ≡ ground.old.map }
    ensures same { Extends (IsSeenObject (shape filter.now) ground.old head.now.0) ground.old ground.new }
    ensures err { IfErr result (IsApplyFault (IsSeenObject (shape filter.now) ground.old head.now.0) ground.new.store) }
{
    let rule = ground.rule;
    let known = ground.true_maps.take(filter, rule);
    let kept = mem::replace(&mut ground.map, known);
    let result = before_upon(alloc, ground, filter, head, commits);
    let known = mem::replace(&mut ground.map, kept);
    ground.true_maps.put(filter, rule, known);
    result
}

// The same, over a ground whose map has projections from scratch. It gets more of them.
fn before_upon(
    alloc: Global,
    ground: &mut Ground,
    filter: &Filter,
    head: &Name,
    commits: &[Name],
) -> Result<Vec<Option<Name>>, ApplyError>
    requires usable { IsUsable (shape filter.now) }
    requires ground { IsGround ground.old }
    requires map { IsTrueMap ground.old.store (commits_of ground.old) ground.old.rule (shape filter.now)
        ground.old.map }
    requires head { IsSome (place_of head.now.0 ground.old.graph) }
    ensures ok { IfOk result (λ v. map (option_map name_bytes) v.items
        ≡ map (λ n. shown_before (shape filter.now) ground.old head.now.0 n.0) commits.now) }
    ensures there { IfOk result (λ v. Each (λ o. IfSome o (λ n. has Commit ground.new.store n.0 ≡ true)) v.items) }
    ensures walked { IsTrueWalk (shape filter.now) head.now.0 ground.old ground.new }
    ensures err { IfErr result (IsApplyFault (IsSeenObject (shape filter.now) ground.old head.now.0) ground.new.store) }
{
    let Some(place) = ground.graph.index_of(head) else {
        unreachable!()
    };
    let places = ground.graph.ancestors(place)?;
    let root = ground.graph.tree(place);
    let mut asked = Asked::new(alloc, ground, filter, root)?;
    let mut found = Vec::new(alloc);
    for name in commits {
        let projected = shown_among(alloc, ground, filter, &mut asked, &places, name)?;
        add_found(&mut found, projected)?;
    }
    Ok(found)
}

// Puts what was found of one more commit behind the others.
fn add_found(found: &mut Vec<Option<Name>>, projected: Option<Name>) -> Result<(), AllocError>
    ensures { OnOk result (found.new.items ≡ found.old.items ++ projected ∷ []) }
{
    found.push(projected)?;
    Ok(())
}

// What the commit of that name is projected to, where it stands at one of these places.
fn shown_among(
    alloc: Global,
    ground: &mut Ground,
    filter: &Filter,
    asked: &mut Asked,
    places: &[u32],
    name: &Name,
) -> Result<Option<Name>, ApplyError>
    requires usable { IsUsable (shape filter.now) }
    requires ground { IsGround ground.old }
    requires map { IsTrueMap ground.old.store (commits_of ground.old) ground.old.rule (shape filter.now)
        ground.old.map }
    requires asked { IsAskedFor (shape filter.now) ground.old asked.old }
    requires placed { All (λ p. p < length ground.old.graph) places.now }
    requires rising { IsStrictlyIncreasing places.now }
    ensures ok { IfOk result (λ o.
        option_map name_bytes o ≡ shown_at (shape filter.now) ground.old places.now name.now.0) }
    ensures there { IfOk result (λ o. IfSome o (λ n. has Commit ground.new.store n.0 ≡ true)) }
    ensures walked { IsWalkAt (shape filter.now) places.now ground.old ground.new }
    ensures asked { IsAskedFor (shape filter.now) ground.new asked.new }
    ensures err { IfErr result (IsApplyFault (IsSeenAt (shape filter.now) ground.old places.now) ground.new.store) }
{
    if !stands_among(ground, places, name) {
        return Ok(None);
    }
    let Some(shown) = made_to(alloc, ground, filter, asked, name)? else {
        return Ok(None);
    };
    Ok(Some(shown.commit))
}

// Whether the commit of that name stands at one of these places, which ascend.
fn stands_among(ground: &Ground, places: &[u32], name: &Name) -> bool
    requires ground { IsGround ground.now }
    requires placed { All (λ p. p < length ground.now.graph) places.now }
    requires rising { IsStrictlyIncreasing places.now }
    ensures { result ≡ stands_at ground.now.graph places.now name.now.0 }
{
    match ground.graph.index_of(name) {
        None => false,
        Some(place) => places.binary_search(&place).is_ok(),
    }
}
