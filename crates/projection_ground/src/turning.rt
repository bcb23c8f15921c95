// One commit of a walk.
ghost use Rattle.std.specs.Prelude.{◌≡◌, ◌<◌, ◌≤◌, true, Some, length, map, IfOk, IfErr};
ghost use Rattle.git_objects.specs.Commits.{Commit as CommitValue};
ghost use Rattle.git_objects.specs.Snapshots.{Snapshot};
ghost use Rattle.git_objects.specs.declared.kind.Kind.TheVariants.{Tree};
ghost use Rattle.object_store.specs.Objects.{has};
ghost use Rattle.object_store.specs.StoredSnapshots.{commit_named};
ghost use Rattle.commit_map.specs.Shown.{shown_value};
ghost use Rattle.filter_text.specs.Shapes.{shape};
ghost use Rattle.filter_apply.specs.Faults.{IsApplyFault};
ghost use Rattle.workspace.specs.Laws.{IsUsable};
ghost use Rattle.projection_laws.specs.Projections.{members};
ghost use Rattle.projection_laws.specs.StoredGraphs.{name_at, snapshot_named};
ghost use Rattle.projection_ground.specs.Asked.{IsAskedFor};
ghost use Rattle.projection_ground.specs.Choosing.{AreKept, names_at, parents_at};
ghost use Rattle.projection_ground.specs.Grounds.{Extends, IsGround, IsShownOf, commits_of};
ghost use Rattle.projection_ground.specs.Turns.{IsOwnTurn, IsTurn, IsTurnUpon};

use crate::Ground;
use crate::choosing::{Choice, chosen, lacking_parent, members};
use crate::seeing::{Asked, seen};
use commit_map::Shown;
use filter_apply::ApplyError;
use filter_text::Filter;
use git_objects::{Kind, Name, name_of};
use projection_laws::own_body;
use std::alloc::{AllocError, Global};

/// What becomes of one commit.
#[derive(Drop)]
pub enum Turn {
    /// The commit at this place of the graph has to be projected first.
    Below(u32),
    /// The commit is projected to what a parent is projected to, or to nothing.
    Kept(Option<Shown>),
    /// The commit becomes one of its own, with this body.
    New { shown: Shown, body: Vec<u8> },
}

// The commit of its own that the commit at a place becomes.
fn made(
    alloc: Global,
    ground: &Ground,
    place: u32,
    tree: Name,
    projected: &[Shown],
) -> Result<Turn, AllocError>
    requires ground { IsGround ground.now }
    requires place { place < length ground.now.graph }
    requires few { length projected.now ≤ 16 }
    ensures { (c : CommitValue) → commit_named ground.now.store (name_at ground.now.graph place) ≡ Some c →
        IfOk result (IsOwnTurn tree.0 (map shown_value projected.now) c.letter) }
{
    let original = ground.graph.name(place);
    let body = own_body(alloc, &ground.store, &original, tree, projected)?;
    let shown = Shown {
        commit: name_of(Kind::Commit, &body),
        tree,
    };
    Ok(Turn::New { shown, body })
}

// What becomes of the commit at a place, of which this tree is shown, upon the projections of its parents.
fn turn_upon(
    alloc: Global,
    ground: &Ground,
    place: u32,
    projected: &[Shown],
    tree: Name,
) -> Result<Turn, AllocError>
    requires ground { IsGround ground.now }
    requires place { place < length ground.now.graph }
    requires kept { AreKept ground.now (parents_at ground.now.graph place) }
    requires members { map shown_value projected.now
        ≡ members ground.now.map (names_at ground.now.graph (parents_at ground.now.graph place)) }
    requires few { length projected.now ≤ 16 }
    requires tree { has Tree ground.now.store tree.0 ≡ true }
    ensures { (c : CommitValue) → commit_named ground.now.store (name_at ground.now.graph place) ≡ Some c →
        IfOk result (IsTurnUpon ground.now place tree.0 c.letter (map shown_value projected.now)) }
{
    match chosen(ground, ground.graph.parents(place), projected, &tree)? {
        Choice::Below(below) => Ok(Turn::Below(below)),
        Choice::Nothing => Ok(Turn::Kept(None)),
        Choice::Member(m) => Ok(Turn::Kept(Some(m))),
        Choice::New => made(alloc, ground, place, tree, projected),
    }
}

/// What becomes by a filter of the commit at a place of the graph, unless another commit has to be projected first.
/// Trees that are shown are put into the store; nothing is kept.
pub fn take_turn(
    alloc: Global,
    ground: &mut Ground,
    filter: &Filter,
    asked: &mut Asked,
    place: u32,
) -> Result<Turn, ApplyError>
    requires usable { IsUsable (shape filter.now) }
    requires ground { IsGround ground.old }
    requires place { place < length ground.old.graph }
    requires asked { IsAskedFor (shape filter.now) ground.old asked.old }
    ensures same { Extends (IsShownOf (shape filter.now) (commits_of ground.old)) ground.old ground.new }
    ensures map { ground.new.map ≡ ground.old.map }
    ensures asked { IsAskedFor (shape filter.now) ground.new asked.new }
    ensures err { IfErr result (IsApplyFault (IsShownOf (shape filter.now) (commits_of ground.old)) ground.new.store) }
    ensures ok { (c : Snapshot) → snapshot_named ground.old.store (name_at ground.old.graph place) ≡ Some c →
        IfOk result (IsTurn (shape filter.now) ground.old ground.new place c) }
{
    if let Some(below) = lacking_parent(ground, place) {
        return Ok(Turn::Below(below));
    }
    let projected = members(alloc, ground, ground.graph.parents(place))?;
    let root = ground.graph.tree(place);
    let tree = seen(alloc, ground, filter, asked, root)?;
    let turn = turn_upon(alloc, ground, place, &projected, tree)?;
    Ok(turn)
}
