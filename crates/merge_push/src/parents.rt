// The parents of the original of a pushed commit.
ghost use Rattle.std.specs.Prelude.{◌≡◌, ◌<◌, ◌++◌, ◌∷◌, [], drop, filter_map, length, IfOk, OnOk};
ghost use Rattle.std.specs.Option.{is_some, option_to_list};
ghost use Rattle.git_objects.specs.Snapshots.{Snapshot};
ghost use Rattle.fast_import.specs.Standing.{IsCommitIn};
ghost use Rattle.projection_ground.specs.Grounds.{IsGround};
ghost use Rattle.projection_laws.specs.Projections.{known_at};
ghost use Rattle.projection_laws.specs.StoredGraphs.{name_at};
ghost use Rattle.merge_laws.specs.MergeVerdicts.{further};
ghost use Rattle.merge_push.specs.Originals.{IsReadAgain};
ghost use Rattle.merge_push.specs.Places.{origin_in};

use crate::entered::Entered;
use fast_import::Made;
use git_objects::{CommitView, Name};
use history_ground::Origins;
use projection_ground::Ground;
use std::alloc::{AllocError, Global};

// The places of the original's parents: of the original before, and of the origins of the further ones.
pub(crate) fn parents_of(
    alloc: Global,
    ground: &Ground,
    origins: &Origins,
    entered: &Entered,
    before: u32,
    pushed: &Made,
) -> Result<Vec<u32>, AllocError>
    requires ground { IsGround ground.now }
    requires before { before < length ground.now.graph }
    requires pushed { (c : Snapshot) × IsCommitIn ground.now.store pushed.now c × IsReadAgain c }
    ensures { (c : Snapshot) → IsCommitIn ground.now.store pushed.now c → IsReadAgain c
        → IfOk result (λ ps. ps.items ≡ before ∷ filter_map (origin_in origins.now entered.now)
        (further (known_at ground.now.map (name_at ground.now.graph before)) c.parents)) }
{
    let Some(object) = ground.store.get(&pushed.name) else {
        unreachable!()
    };
    let Some(commit) = CommitView::of(object.body) else {
        unreachable!()
    };
    // Where the commit before is projected, the first parent is its projection.
    let first = if is_projected(ground, before) { 1 } else { 0 };
    let mut places = Vec::new(alloc);
    add_place(&mut places, before)?;
    add_origins(&mut places, origins, entered, &commit, first)?;
    Ok(places)
}

// Whether something is known to be shown of the commit at a place.
fn is_projected(ground: &Ground, place: u32) -> bool
    requires { place < length ground.now.graph }
    ensures { result ≡ is_some (known_at ground.now.map (name_at ground.now.graph place)) }
{
    ground
        .map
        .get(&ground.graph.name(place))
        .flatten()
        .is_some()
}

// Puts a place behind the others.
fn add_place(places: &mut Vec<u32>, place: u32) -> Result<(), AllocError>
    ensures { OnOk result (places.new.items ≡ places.old.items ++ place ∷ []) }
{
    places.push(place)?;
    Ok(())
}

// Puts the origin of a commit behind the others, where it has one.
fn add_origin(
    places: &mut Vec<u32>,
    origins: &Origins,
    entered: &Entered,
    parent: &Name,
) -> Result<(), AllocError>
    ensures { OnOk result (places.new.items
        ≡ places.old.items ++ option_to_list (origin_in origins.now entered.now parent.now.0)) }
{
    match origin(origins, entered, parent) {
        None => Ok(()),
        Some(place) => add_place(places, place),
    }
}

// The same of a commit's parents, from the one of that number on.
fn add_origins(
    places: &mut Vec<u32>,
    origins: &Origins,
    entered: &Entered,
    commit: &CommitView<'_>,
    first: usize,
) -> Result<(), AllocError>
    ensures { OnOk result (places.new.items ≡ places.old.items
        ++ filter_map (origin_in origins.now entered.now) (drop first commit.now.parents)) }
{
    for i in first..commit.parent_count() {
        match commit.parent(i) {
            None => unreachable!(),
            Some(parent) => add_origin(places, origins, entered, &parent)?,
        }
    }
    Ok(())
}

// The place of the first commit with this projection, or of the original of the commit that was pushed before.
fn origin(origins: &Origins, entered: &Entered, projected: &Name) -> Option<u32>
    ensures { result ≡ origin_in origins.now entered.now projected.now.0 }
{
    match origins.first(projected) {
        Some(place) => Some(place),
        None => entered.place(projected),
    }
}
