// Histories of commits, from scratch.
ghost use Rattle.std.specs.Prelude.{◌≡◌, ◌<◌, ◌++◌, ◌∷◌, [], None, Some, length, map};
ghost use Rattle.std.specs.Prelude.{IfErr, IfOk, IsSome, OnOk};
ghost use Rattle.std.specs.List.{last_or};
ghost use Rattle.std.specs.Option.{option_map};
ghost use Rattle.git_objects.specs.Parts.{name_bytes};
ghost use Rattle.git_objects.specs.declared.kind.Kind.TheVariants.{Commit};
ghost use Rattle.object_store.specs.Growth.{IsGrownBy, IsOnly};
ghost use Rattle.object_store.specs.Objects.{find_named, IsStore};
ghost use Rattle.object_store.specs.Puts.{of_body};
ghost use Rattle.git_objects.specs.Names.{name};
ghost use Rattle.commit_graph.specs.Graphs.{place_of};
ghost use Rattle.commit_map.specs.Shown.{kept_at, shown_value};
ghost use Rattle.filter_text.specs.Shapes.{shape};
ghost use Rattle.filter_apply.specs.Faults.{IsApplyFault};
ghost use Rattle.filter_apply.specs.declared.fault.ApplyError.TheVariants.{OutOfMemory};
ghost use Rattle.workspace.specs.Laws.{IsUsable};
ghost use Rattle.workspace.specs.Workspaces.{shown};
ghost use Rattle.projection_laws.specs.Histories.{AreMade};
ghost use Rattle.projection_laws.specs.ProjectionLaws.{AreOfDistinctNames};
ghost use Rattle.projection_laws.specs.Projections.{history_graph, own_commits, projection};
ghost use Rattle.projection_laws.specs.StoredGraphs.{name_at};
ghost use Rattle.projection_ground.specs.Asked.{IsAskedFor, IsNone};
ghost use Rattle.projection_ground.specs.Grounds.{Extends, IsGround, commits_of};
ghost use Rattle.history_ground.specs.Histories.{IsOfHistory};
ghost use Rattle.history_ground.specs.Making.{IsAdded, IsFit, IsReady, IsTaken, IsTakenIn, IsTurnObject, with_name};

use commit_map::{CommitMap, Shown};
use filter_apply::ApplyError;
use filter_text::Filter;
use git_objects::{Kind, Name};
use indexmap::IndexSet;
use object_store::{PutError, Store};
use projection_ground::{Asked, Ground, Turn, take_turn};
use projection_laws::history_law;
use std::alloc::{AllocError, Global};
use std::mem;

/// Takes in a commit whose tree and parents are there.
pub fn put_commit(store: &mut Store, body: Vec<u8>) -> Result<(), ApplyError>
    requires { of_body store.old Commit body.items None ≡ None }
    ensures ok { OnOk result (find_named store.new (name Commit body.items)
        ≡ Some (record { kind = Commit; body = body.items })) }
    ensures err { IfErr result (IsApplyFault (IsOnly Commit body.items) store.new) }
    ensures store { IsGrownBy (IsOnly Commit body.items) store.old store.new }
{
    match store.put(Kind::Commit, body) {
        Ok(_) => Ok(()),
        Err(PutError::Collision { name }) => Err(ApplyError::Collision { name }),
        Err(PutError::OutOfMemory) => Err(ApplyError::OutOfMemory),
        Err(PutError::NotCanonical) => unreachable!(),
        Err(PutError::MissingChild { name: _ }) => unreachable!(),
    }
}

// Adds a name behind the others, unless it is there.
fn add_name(made: &mut IndexSet<Name>, name: Name) -> Result<(), AllocError>
    ensures { OnOk result (map name_bytes made.new.keys ≡ with_name (map name_bytes made.old.keys) name.0) }
{
    made.insert(name)?;
    Ok(())
}

// Takes in a commit whose tree and parents are there, with its name behind the others; unless its name is there.
fn add_made(
    store: &mut Store,
    made: &mut IndexSet<Name>,
    name: Name,
    body: Vec<u8>,
) -> Result<(), ApplyError>
    requires store { IsStore store.old }
    requires fit { IsFit store.old name.0 body.items }
    ensures ok { OnOk result
        (IsTakenIn store.new (map name_bytes made.old.keys) (map name_bytes made.new.keys) body.items) }
    ensures err { IfErr result (IsApplyFault (IsAdded (map name_bytes made.old.keys) body.items) store.new) }
    ensures store { IsGrownBy (IsAdded (map name_bytes made.old.keys) body.items) store.old store.new }
{
    if made.contains(&name) {
        return Ok(());
    }
    put_commit(store, body)?;
    add_name(made, name)?;
    Ok(())
}

// Keeps what the commit at a place is projected to.
pub(crate) fn keep(ground: &mut Ground, place: u32, shown: Option<Shown>) -> Result<(), ApplyError>
    requires place { place < length ground.old.graph }
    requires lacked { kept_at (name_at ground.old.graph place) ground.old.map ≡ None }
    ensures ok { OnOk result (ground.new ≡ record ground.old {
      map
          = ground.old.map ++ (name_at ground.old.graph place, option_map shown_value shown) ∷ [];
    }) }
    ensures err { IfErr result (λ e. IsApplyFault IsNone ground.old.store e × (ground.new ≡ ground.old)) }
{
    ground.map.set(ground.graph.name(place), shown)?;
    Ok(())
}

// Keeps a commit of its own as what the commit at the place is projected to, and takes it in.
fn keep_made(
    ground: &mut Ground,
    place: u32,
    shown: Shown,
    body: Vec<u8>,
    made: &mut IndexSet<Name>,
) -> Result<(), ApplyError>
    requires ground { IsGround ground.old }
    requires place { place < length ground.old.graph }
    requires lacked { kept_at (name_at ground.old.graph place) ground.old.map ≡ None }
    requires fit { IsFit ground.old.store shown.commit.0 body.items }
    ensures map { OnOk result (ground.new.map
        ≡ ground.old.map ++ (name_at ground.old.graph place, Some (shown_value shown)) ∷ []) }
    ensures taken { OnOk result
        (IsTakenIn ground.new.store (map name_bytes made.old.keys) (map name_bytes made.new.keys) body.items) }
    ensures same { Extends (IsAdded (map name_bytes made.old.keys) body.items) ground.old ground.new }
    ensures err { IfErr result (IsApplyFault (IsAdded (map name_bytes made.old.keys) body.items) ground.new.store) }
{
    add_made(&mut ground.store, made, shown.commit, body)?;
    keep(ground, place, Some(shown))
}

// Projects the commit at a place, when all that it reaches is projected, and takes in the commit that it becomes.
fn take_in(
    alloc: Global,
    ground: &mut Ground,
    filter: &Filter,
    asked: &mut Asked,
    place: u32,
    made: &mut IndexSet<Name>,
) -> Result<(), ApplyError>
    requires usable { IsUsable (shape filter.now) }
    requires ground { IsGround ground.old }
    requires ready { IsReady ground.old place (map name_bytes made.old.keys) }
    requires asked { IsAskedFor (shape filter.now) ground.old asked.old }
    ensures ok { OnOk result (IsTaken (shape filter.now) place ground.old ground.new
        (map name_bytes made.old.keys) (map name_bytes made.new.keys)) }
    ensures same { Extends
        (IsTurnObject (shape filter.now) ground.old place (map name_bytes made.old.keys)) ground.old ground.new }
    ensures asked { IsAskedFor (shape filter.now) ground.new asked.new }
    ensures err { IfErr result
        (IsApplyFault (IsTurnObject (shape filter.now) ground.old place (map name_bytes made.old.keys))
        ground.new.store) }
{
    match take_turn(alloc, ground, filter, asked, place)? {
        Turn::Below(_) => unreachable!(),
        Turn::Kept(shown) => keep(ground, place, shown),
        Turn::New { shown, body } => keep_made(ground, place, shown, body, made),
    }
}

// Projects the commit at a place and all that it reaches, where nothing is kept yet, and takes in the commits of the
// history.
fn take_all(
    alloc: Global,
    ground: &mut Ground,
    filter: &Filter,
    asked: &mut Asked,
    head: u32,
) -> Result<IndexSet<Name>, ApplyError>
    requires usable { IsUsable (shape filter.now) }
    requires ground { IsGround ground.old }
    requires empty { ground.old.map ≡ [] }
    requires head { head < length ground.old.graph }
    requires asked { IsAskedFor (shape filter.now) ground.old asked.old }
    ensures ok { IfOk result (λ made. AreMade ground.new.store
        (history_graph ground.old.rule (shown (shape filter.now)) (commits_of ground.old)
        (name_at ground.old.graph head)) (map name_bytes made.keys)) }
    ensures same { Extends
        (IsOfHistory (shape filter.now) ground.old (name_at ground.old.graph head)) ground.old ground.new }
    ensures err { IfErr result
        (IsApplyFault (IsOfHistory (shape filter.now) ground.old (name_at ground.old.graph head)) ground.new.store) }
{
    let places = ground.graph.ancestors(head)?;
    let mut made = IndexSet::new(alloc);
    for place in &places {
        take_in(alloc, ground, filter, asked, *place, &mut made)?;
    }
    Ok(made)
}

// The names of a set, in their order.
fn names_of(alloc: Global, made: &IndexSet<Name>) -> Result<Vec<Name>, ApplyError>
    ensures ok { IfOk result (λ v. v.items ≡ made.now.keys) }
    ensures err { IfErr result (λ e. e ≡ OutOfMemory) }
{
    let names = made.as_slice().to_vec(alloc)?;
    Ok(names)
}

// The history of the commit of that name, over a ground that keeps nothing.
fn taken(
    alloc: Global,
    ground: &mut Ground,
    filter: &Filter,
    head: &Name,
) -> Result<Vec<Name>, ApplyError>
    requires usable { IsUsable (shape filter.now) }
    requires ground { IsGround ground.old }
    requires empty { ground.old.map ≡ [] }
    requires head { IsSome (place_of head.now.0 ground.old.graph) }
    ensures ok { IfOk result (λ v. AreMade ground.new.store (history_graph ground.old.rule (shown (shape filter.now))
        (commits_of ground.old) head.now.0) (map name_bytes v.items)) }
    ensures same { Extends (IsOfHistory (shape filter.now) ground.old head.now.0) ground.old ground.new }
    ensures err { IfErr result (IsApplyFault (IsOfHistory (shape filter.now) ground.old head.now.0) ground.new.store) }
{
    let Some(place) = ground.graph.index_of(head) else {
        unreachable!()
    };
    let root = ground.graph.tree(place);
    let mut asked = Asked::new(alloc, ground, filter, root)?;
    let made = take_all(alloc, ground, filter, &mut asked, place)?;
    names_of(alloc, &made)
}

/// The history by a filter of the commit of that name: what it and its ancestors are projected to from scratch, as
/// commits that are put into the store, each once, parents before children. The commit is in the graph; what the map
/// keeps isn't asked.
pub fn history(
    alloc: Global,
    ground: &mut Ground,
    filter: &Filter,
    head: &Name,
) -> Result<Vec<Name>, ApplyError>
    requires usable { IsUsable (shape filter.now) }
    requires ground { IsGround ground.old }
    requires head { IsSome (place_of head.now.0 ground.old.graph) }
    ensures ok { IfOk result (λ v. AreMade ground.new.store (history_graph ground.old.rule (shown (shape filter.now))
        (commits_of ground.old) head.now.0) (map name_bytes v.items)) }
    // where no two different commits that are made have one name, the last is the projection of the head, or none
    ensures last { IfOk result (λ v.
        AreOfDistinctNames (own_commits ground.old.rule (shown (shape filter.now)) (commits_of ground.old)
        (head.now.0 ∷ []))
        → last_or None (map name_bytes v.items) ≡ option_map (λ s. s.commit)
        (projection ground.old.rule (shown (shape filter.now)) (commits_of ground.old) head.now.0)) }
    ensures map { ground.new.map ≡ ground.old.map }
    ensures same { Extends (IsOfHistory (shape filter.now) ground.old head.now.0) ground.old ground.new }
    ensures err { IfErr result (IsApplyFault (IsOfHistory (shape filter.now) ground.old head.now.0) ground.new.store) }
{
    let kept = mem::replace(&mut ground.map, CommitMap::new(alloc));
    let result = taken(alloc, ground, filter, head);
    ground.map = kept;
    history_law();
    result
}
