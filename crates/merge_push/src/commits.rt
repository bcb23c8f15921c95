// The originals of pushed commits with merges.
ghost use Rattle.std.specs.Prelude.{◌≡◌, ◌<◌, ◌≤◌, ◌++◌, ◌∷◌, [], All, List, true, length};
ghost use Rattle.std.specs.Prelude.{map, None};
ghost use Rattle.std.specs.Prelude.{IfOk, IsSome, OnErr, OnOk};
ghost use Rattle.git_objects.specs.Snapshots.{Snapshot};
ghost use Rattle.git_objects.specs.declared.kind.Kind.TheVariants.{Tree};
ghost use Rattle.git_objects.specs.declared.limits.TheConstants.{PARENTS, STREAM_BYTES};
ghost use Rattle.object_store.specs.Objects.{has};
ghost use Rattle.object_store.specs.Unfolding.{flat};
ghost use Rattle.commit_graph.specs.Graphs.{place_of};
ghost use Rattle.commit_map.specs.Shown.{kept_at};
ghost use Rattle.filter_text.specs.Shapes.{shape};
ghost use Rattle.workspace.specs.Laws.{IsUsable};
ghost use Rattle.projection_laws.specs.StoredGraphs.{name_at};
ghost use Rattle.projection_ground.specs.Choosing.{KeepsAll, is_own_by, names_at};
ghost use Rattle.projection_ground.specs.Grounds.{Extends, IsGround};
ghost use Rattle.history_ground.specs.Origins.{AreFirsts};
ghost use Rattle.fast_import.specs.Standing.{IsCommitIn};
ghost use Rattle.merge_laws.specs.MergeVerdicts.{Progress as ProgressOf};
ghost use Rattle.merge_push.specs.Originals.{ArePushed, AreWorkedOut, IsMadeOver, IsMadeUponHead, IsOriginal};
ghost use Rattle.merge_push.specs.Originals.{IsPut, IsReadAgain, original_upon};
ghost use Rattle.merge_push.specs.Progressing.{HasTrueMap, IsAddedTo, IsEnteredAs, IsHalfEntered, IsNext, Widens};

use crate::entered::Entered;
use crate::filling::fill;
use crate::parents::parents_of;
use commit_map::Shown;
use fast_import::Made;
use filter_text::Filter;
use git_objects::limits::PARENTS;
use git_objects::{Kind, Name, Quantity, name_of};
use history_ground::{Origins, put_commit};
use projection_ground::{Ground, TrueMaps, is_own_upon};
use projection_laws::own_body;
use push_back::{OriginalError, TreeRefusal, tree_upon};
use std::alloc::{AllocError, Global};
use std::mem;

// How many commits a graph takes.
const MOST_COMMITS: u32 = 1 << 30;

// How far a push has come: the place of the original before, and of the original of each commit that was pushed.
#[derive(Drop)]
struct Progress {
    before: u32,
    entered: Entered,
}

// The commit at a place.
fn shown_at(ground: &Ground, place: u32) -> Shown
    requires { place < length ground.now.graph }
    ensures { result.commit.0 ≡ name_at ground.now.graph place }
{
    Shown {
        commit: ground.graph.name(place),
        tree: ground.graph.tree(place),
    }
}

// The commits at places as parents of a commit.
fn as_shown(alloc: Global, ground: &Ground, places: &[u32]) -> Result<Vec<Shown>, AllocError>
    requires { All (λ p. p < length ground.now.graph) places.now }
    ensures { IfOk result (λ upon. map (λ s. s.commit.0) upon.items ≡ names_at ground.now.graph places.now) }
{
    let mut upon = Vec::new(alloc);
    for place in places {
        upon.push(shown_at(ground, *place))?;
    }
    Ok(upon)
}

// Puts the original of a pushed commit into the store, which has this tree and the commits at these places as its
// parents.
fn put_original(
    alloc: Global,
    ground: &mut Ground,
    parents: &[u32],
    tree: Name,
    pushed: &Made,
) -> Result<Made, TreeRefusal>
    requires ground { IsGround ground.old }
    requires parents { All (λ p. p < length ground.old.graph) parents.now }
    requires few { length parents.now ≤ PARENTS }
    requires tree { has Tree ground.old.store tree.0 ≡ true }
    requires pushed { (c : Snapshot) × IsCommitIn ground.old.store pushed.now c × IsReadAgain c }
    ensures { (c : Snapshot) → IsCommitIn ground.old.store pushed.now c → IsReadAgain c → IsPut (record {
      tree = flat ground.old.store tree.0;
      parents = names_at ground.old.graph parents.now;
      letter = c.letter;
    }) ground.old ground.new result }
{
    let upon = as_shown(alloc, ground, parents)?;
    let body = own_body(alloc, &ground.store, &pushed.name, tree, &upon)?;
    let name = name_of(Kind::Commit, &body);
    put_commit(&mut ground.store, body)?;
    Ok(Made { name, tree })
}

// Works out the original of a pushed commit upon the commits at these places, where the first of them has the tree
// `base`; and puts it into the store.
fn original(
    alloc: Global,
    ground: &mut Ground,
    filter: &Filter,
    parents: &[u32],
    base: Name,
    pushed: &Made,
) -> Result<Made, TreeRefusal>
    requires usable { IsUsable (shape filter.now) }
    requires ground { IsGround ground.old }
    requires kept { KeepsAll ground.old }
    requires parents { All (λ p. p < length ground.old.graph) parents.now }
    requires base { has Tree ground.old.store base.0 ≡ true }
    requires pushed { (c : Snapshot) × IsCommitIn ground.old.store pushed.now c × IsReadAgain c }
    ensures { (c : Snapshot) → IsCommitIn ground.old.store pushed.now c → IsReadAgain c
        → IsOriginal (shape filter.now) (flat ground.old.store base.0) c
        (original_upon (shape filter.now) (is_own_by ground.old parents.now c.tree c.letter)
        (flat ground.old.store base.0) (names_at ground.old.graph parents.now) c)
        ground.old ground.new result }
{
    if !is_own_upon(alloc, ground, parents, &pushed.tree)? {
        return Err(TreeRefusal::NoChange);
    }
    let tree = tree_upon(alloc, ground, filter, base, pushed.tree)?;
    if parents.len() > PARENTS {
        return Err(TreeRefusal::TreeLimit {
            which: Quantity::Parents,
        });
    }
    put_original(alloc, ground, parents, tree, pushed)
}

// Enters an original that is projected to the pushed commit, unless it is there, and gives its place. A graph that is
// full can't take a commit more, which is told as want of memory.
fn enter(
    ground: &mut Ground,
    made: Made,
    parents: Vec<u32>,
    pushed: &Made,
) -> Result<u32, AllocError>
    requires parents { All (λ p. p < length ground.old.graph) parents.items }
    requires lacked { place_of made.name.0 ground.old.graph ≡ None → kept_at made.name.0 ground.old.map ≡ None }
    ensures ok { IfOk result (IsEnteredAs made parents.items pushed.now ground.old ground.new) }
    ensures err { OnErr result (IsHalfEntered made parents.items ground.old ground.new) }
{
    if let Some(place) = ground.graph.index_of(&made.name) {
        return Ok(place);
    }
    let place = ground.graph.len();
    if place >= MOST_COMMITS {
        return Err(AllocError);
    }
    ground.graph.add(made.name, made.tree, parents)?;
    let shown = Shown {
        commit: pushed.name,
        tree: pushed.tree,
    };
    ground.map.set(made.name, Some(shown))?;
    Ok(place)
}

// Puts a name behind the others.
fn add_name(names: &mut Vec<Name>, name: Name) -> Result<(), AllocError>
    ensures { OnOk result (names.new.items ≡ names.old.items ++ name ∷ []) }
{
    names.push(name)?;
    Ok(())
}

// Works out one original, puts it into the store and its name behind the others, and enters it.
fn add_original(
    alloc: Global,
    ground: &mut Ground,
    filter: &Filter,
    origins: &Origins,
    pushed: &Made,
    progress: &mut Progress,
    names: &mut Vec<Name>,
) -> Result<(), TreeRefusal>
    requires usable { IsUsable (shape filter.now) }
    requires next { (s : ProgressOf) × (c : Snapshot) × IsNext (shape filter.now) origins.now ground.old
        progress.old.before progress.old.entered s pushed.now c }
    ensures { (s : ProgressOf) (c : Snapshot) → IsNext (shape filter.now) origins.now ground.old
        progress.old.before progress.old.entered s pushed.now c →
        IsAddedTo (shape filter.now) origins.now s c ground.old ground.new progress.new.before progress.new.entered
        names.old.items names.new.items result }
{
    let parents = parents_of(
        alloc,
        ground,
        origins,
        &progress.entered,
        progress.before,
        pushed,
    )?;
    let base = ground.graph.tree(progress.before);
    let made = original(alloc, ground, filter, &parents, base, pushed)?;
    let place = enter(ground, made, parents, pushed)?;
    progress.entered.add(pushed.name, place)?;
    progress.before = place;
    add_name(names, made.name)?;
    Ok(())
}

// Works out the originals over a ground that keeps the true projection of each of its commits, and which keeps the
// originals.
fn originals_upon(
    alloc: Global,
    ground: &mut Ground,
    filter: &Filter,
    head: &Name,
    origins: &Origins,
    commits: &[Made],
) -> Result<Vec<Name>, OriginalError>
    requires usable { IsUsable (shape filter.now) }
    requires ground { IsGround ground.old }
    requires kept { KeepsAll ground.old }
    requires map { HasTrueMap (shape filter.now) ground.old }
    requires head { IsSome (place_of head.now.0 ground.old.graph) }
    requires origins { AreFirsts (shape filter.now) ground.old ground.old.store origins.now }
    requires commits { (cs : List Snapshot) × ArePushed (shape filter.now) ground.old head.now.0 commits.now cs }
    requires few { length commits.now ≤ STREAM_BYTES }
    ensures worked { (cs : List Snapshot) → ArePushed (shape filter.now) ground.old head.now.0 commits.now cs
        → AreWorkedOut (shape filter.now) ground.old head.now.0 cs
        (IsMadeUponHead (shape filter.now) ground.old head.now.0 cs) ground.new.store result }
    ensures same { (cs : List Snapshot) → ArePushed (shape filter.now) ground.old head.now.0 commits.now cs
        → Widens (IsMadeUponHead (shape filter.now) ground.old head.now.0 cs) ground.old ground.new }
{
    let Some(place) = ground.graph.index_of(head) else {
        unreachable!()
    };
    let mut progress = Progress {
        before: place,
        entered: Entered::new(alloc),
    };
    let mut names = Vec::new(alloc);
    let mut n = 0u32;
    for pushed in commits {
        n += 1;
        match add_original(
            alloc,
            ground,
            filter,
            origins,
            pushed,
            &mut progress,
            &mut names,
        ) {
            Ok(()) => {}
            Err(refusal) => return Err(OriginalError { n, refusal }),
        }
    }
    Ok(names)
}

// The same, over a ground whose map has projections from scratch, but maybe not all.
fn originals_filled(
    alloc: Global,
    ground: &mut Ground,
    filter: &Filter,
    head: &Name,
    origins: &Origins,
    commits: &[Made],
) -> Result<Vec<Name>, OriginalError>
    requires usable { IsUsable (shape filter.now) }
    requires ground { IsGround ground.old }
    requires map { HasTrueMap (shape filter.now) ground.old }
    requires head { IsSome (place_of head.now.0 ground.old.graph) }
    requires origins { AreFirsts (shape filter.now) ground.old ground.old.store origins.now }
    requires commits { (cs : List Snapshot) × ArePushed (shape filter.now) ground.old head.now.0 commits.now cs }
    requires few { length commits.now ≤ STREAM_BYTES }
    ensures worked { (cs : List Snapshot) → ArePushed (shape filter.now) ground.old head.now.0 commits.now cs
        → AreWorkedOut (shape filter.now) ground.old head.now.0 cs
        (IsMadeOver (shape filter.now) ground.old head.now.0 cs) ground.new.store result }
    ensures same { (cs : List Snapshot) → ArePushed (shape filter.now) ground.old head.now.0 commits.now cs
        → Widens (IsMadeOver (shape filter.now) ground.old head.now.0 cs) ground.old ground.new }
{
    match fill(alloc, ground, filter) {
        Ok(()) => originals_upon(alloc, ground, filter, head, origins, commits),
        Err(error) => Err(OriginalError {
            n: 1,
            refusal: TreeRefusal::from(error),
        }),
    }
}

// The same; graph and map are then as they were.
fn originals_within(
    alloc: Global,
    ground: &mut Ground,
    filter: &Filter,
    head: &Name,
    origins: &Origins,
    commits: &[Made],
) -> Result<Vec<Name>, OriginalError>
    requires usable { IsUsable (shape filter.now) }
    requires ground { IsGround ground.old }
    requires map { HasTrueMap (shape filter.now) ground.old }
    requires head { IsSome (place_of head.now.0 ground.old.graph) }
    requires origins { AreFirsts (shape filter.now) ground.old ground.old.store origins.now }
    requires commits { (cs : List Snapshot) × ArePushed (shape filter.now) ground.old head.now.0 commits.now cs }
    requires few { length commits.now ≤ STREAM_BYTES }
    ensures worked { (cs : List Snapshot) → ArePushed (shape filter.now) ground.old head.now.0 commits.now cs
        → AreWorkedOut (shape filter.now) ground.old head.now.0 cs
        (IsMadeOver (shape filter.now) ground.old head.now.0 cs) ground.new.store result }
    ensures same { (cs : List Snapshot) → ArePushed (shape filter.now) ground.old head.now.0 commits.now cs
        → Widens (IsMadeOver (shape filter.now) ground.old head.now.0 cs) ground.old
        (record ground.new { true_maps = [] }) }
    ensures graph { ground.new.graph ≡ ground.old.graph }
    ensures map { ground.new.map ≡ ground.old.map }
{
    let commits_before = ground.graph.len();
    let known_before = ground.map.len();
    let result = originals_filled(alloc, ground, filter, head, origins, commits);
    ground.graph.truncate(commits_before);
    ground.map.truncate(known_before);
    result
}

/// Works out the originals of pushed commits and puts them into the store: the first upon the commit `head`, each other
/// upon the original before it; the further parents of each are the first commits of the graph with these projections,
/// or originals before it. At the first commit that is refused it ends; what was put before stays. While it runs the
/// originals stand in the graph; then it is as it was. Without memory, or at a collision, the number says nothing.
pub(crate) fn originals(
    alloc: Global,
    ground: &mut Ground,
    filter: &Filter,
    head: &Name,
    origins: &Origins,
    commits: &[Made],
) -> Result<Vec<Name>, OriginalError>
    requires usable { IsUsable (shape filter.now) }
    requires ground { IsGround ground.old }
    requires head { IsSome (place_of head.now.0 ground.old.graph) }
    requires origins { AreFirsts (shape filter.now) ground.old ground.old.store origins.now }
    requires commits { (cs : List Snapshot) × ArePushed (shape filter.now) ground.old head.now.0 commits.now cs }
    requires few { length commits.now ≤ STREAM_BYTES }
    ensures worked { (cs : List Snapshot) → ArePushed (shape filter.now) ground.old head.now.0 commits.now cs
        → AreWorkedOut (shape filter.now) ground.old head.now.0 cs
        (IsMadeOver (shape filter.now) ground.old head.now.0 cs) ground.new.store result }
    ensures same { (cs : List Snapshot) → ArePushed (shape filter.now) ground.old head.now.0 commits.now cs
        → Extends (IsMadeOver (shape filter.now) ground.old head.now.0 cs) ground.old ground.new }
    ensures map { ground.new.map ≡ ground.old.map }
{
    let rule = ground.rule;
    let mut maps = mem::replace(&mut ground.true_maps, TrueMaps::new(alloc));
    let known = maps.take(filter, rule);
    let kept = mem::replace(&mut ground.map, known);
    let result = originals_within(alloc, ground, filter, head, origins, commits);
    let known = mem::replace(&mut ground.map, kept);
    maps.put(filter, rule, known);
    ground.true_maps = maps;
    result
}
