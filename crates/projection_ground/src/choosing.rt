// What becomes of a commit, from what is kept of older ones.
ghost use Rattle.std.specs.Prelude.{◌≡◌, ◌+◌, ◌<◌, ◌≤◌, ◌&&◌, ◌∷◌, [], ℕ, true, All};
ghost use Rattle.std.specs.Prelude.{Contains, IfOk, IfSome, IfNone, IsSome, None, OnOk, length, map, is_none};
ghost use Rattle.std.specs.List.{find, list_all, list_any};
ghost use Rattle.std.specs.Option.{option_map};
ghost use Rattle.git_objects.specs.Paths.{is_nil, same_bytes};
ghost use Rattle.git_objects.specs.Commits.{Letter};
ghost use Rattle.git_objects.specs.Snapshots.{Snapshot};
ghost use Rattle.git_objects.specs.declared.kind.Kind.TheVariants.{Tree};
ghost use Rattle.object_store.specs.Objects.{has};
ghost use Rattle.object_store.specs.Unfolding.{flat};
ghost use Rattle.commit_map.specs.Shown.{kept_at, shown_value};
ghost use Rattle.projection_laws.specs.Projections.{chosen, is_shown_as, known_at, member_or, members, own};
ghost use Rattle.projection_laws.specs.StoredGraphs.{name_at};
ghost use Rattle.projection_ground.specs.Grounds.{IsGround};
ghost use Rattle.projection_ground.specs.Choosing.{AreKept, IsBehind, IsBelow, IsChoice, IsTest, KeepsAll};
ghost use Rattle.projection_ground.specs.Choosing.{is_own_by, leads_upon, names_at, parents_at, reaches_each};
ghost use Rattle.projection_ground.specs.Choosing.{with_known};

use crate::Ground;
use commit_map::{Rule, Shown};
use git_objects::Name;
use object_store::Store;
use std::alloc::{AllocError, Global};

// How many places before a commit are looked at for its ancestors, in this order, before all are.
const WIDTHS: [u32; 8] = [16, 64, 256, 1024, 4096, 16384, 65536, 262144];

// Whether a projection leads the others, or whether each of some projections is reached.
pub(crate) enum Test {
    Is(bool),
    // The commit at this place has to be projected first.
    Lacks(u32),
}

// What becomes of a commit.
pub(crate) enum Choice {
    // The commit at this place has to be projected first.
    Below(u32),
    Nothing,
    Member(Shown),
    // A commit of its own.
    New,
}

// What is kept of the commit at a place, if anything is.
fn kept(ground: &Ground, place: u32) -> Option<Option<Shown>>
    requires { place < length ground.now.graph }
    ensures { option_map (λ s. option_map shown_value s) result
        ≡ kept_at (name_at ground.now.graph place) ground.now.map }
{
    ground.map.get(&ground.graph.name(place))
}

// The projection of the commit at a place, as far as it is known.
fn known(ground: &Ground, place: u32) -> Option<Shown>
    requires { place < length ground.now.graph }
    ensures { option_map shown_value result ≡ known_at ground.now.map (name_at ground.now.graph place) }
{
    kept(ground, place).flatten()
}

// The first of these places of whose commit nothing is kept.
fn first_lacking(ground: &Ground, places: &[u32]) -> Option<u32>
    requires { All (λ p. p < length ground.now.graph) places.now }
    ensures { result ≡ find (λ p. is_none (kept_at (name_at ground.now.graph p) ground.now.map)) places.now }
{
    places.iter().copied().find(|p| kept(ground, *p).is_none())
}

// The first parent of the commit at a place of which nothing is kept.
pub(crate) fn lacking_parent(ground: &Ground, place: u32) -> Option<u32>
    requires { place < length ground.now.graph }
    ensures some { IfSome result (IsBelow ground.now place) }
    ensures none { IfNone result (AreKept ground.now (parents_at ground.now.graph place)) }
{
    first_lacking(ground, ground.graph.parents(place))
}

// Adds a projection, where there is one and none of its name was added before.
fn add_known(onto: &mut Vec<Shown>, shown: Option<Shown>) -> Result<(), AllocError>
    ensures shown { OnOk result (map shown_value onto.new.items
        ≡ with_known (map shown_value onto.old.items) (option_map shown_value shown)) }
    ensures few { OnOk result (length onto.new.items ≤ length onto.old.items + 1) }
{
    let Some(shown) = shown else {
        return Ok(());
    };
    if is_member(onto, &shown) {
        return Ok(());
    }
    onto.push(shown)?;
    Ok(())
}

// Whether one of these has the name of a projection.
fn is_member(before: &[Shown], shown: &Shown) -> bool
    ensures { result ≡ list_any (λ p. same_bytes shown.now.commit.0 p.commit.0) before.now }
{
    before.iter().any(|p| shown.commit == p.commit)
}

// The projections of the parents, each once.
pub(crate) fn members(
    alloc: Global,
    ground: &Ground,
    parents: &[u32],
) -> Result<Vec<Shown>, AllocError>
    requires { All (λ p. p < length ground.now.graph) parents.now }
    ensures members { IfOk result (λ ms. map shown_value ms.items
        ≡ members ground.now.map (names_at ground.now.graph parents.now)) }
    ensures few { IfOk result (λ ms. length ms.items ≤ length parents.now) }
{
    let mut found = Vec::new(alloc);
    for parent in parents {
        add_known(&mut found, known(ground, *parent))?;
    }
    Ok(found)
}

// Whether the commit at a place is projected to m.
fn is_shown_as(ground: &Ground, place: u32, m: &Shown) -> bool
    requires { place < length ground.now.graph }
    ensures { result ≡ is_shown_as ground.now.map (shown_value m.now) (name_at ground.now.graph place) }
{
    match known(ground, place) {
        None => false,
        Some(shown) => m.commit == shown.commit,
    }
}

// The first of these places with the commit that is projected to m.
fn first_shown_as(ground: &Ground, places: &[u32], m: &Shown) -> Option<u32>
    requires { All (λ p. p < length ground.now.graph) places.now }
    ensures { result ≡ find (λ p. is_shown_as ground.now.map (shown_value m.now)
        (name_at ground.now.graph p)) places.now }
{
    places.iter().copied().find(|p| is_shown_as(ground, *p, m))
}

// Whether one of the commits at these places is projected to m. The last places are looked at first.
fn is_among(ground: &Ground, places: &[u32], m: &Shown) -> bool
    requires { All (λ p. p < length ground.now.graph) places.now }
    ensures { result ≡ list_any (λ p. is_shown_as ground.now.map (shown_value m.now)
        (name_at ground.now.graph p)) places.now }
{
    for i in (0..places.len()).rev() {
        if is_shown_as(ground, places[i], m) {
            return true;
        }
    }
    false
}

// Whether each of these is the projection of one of the commits at the places.
fn are_among(ground: &Ground, places: &[u32], members: &[Shown]) -> bool
    requires { All (λ p. p < length ground.now.graph) places.now }
    ensures { result ≡ list_all (λ m. list_any
        (λ p. is_shown_as ground.now.map (shown_value m) (name_at ground.now.graph p)) places.now) members.now }
{
    members.iter().all(|m| is_among(ground, places, m))
}

// The last of these places of whose commit nothing is kept.
fn last_lacking(ground: &Ground, places: &[u32]) -> Option<u32>
    requires { All (λ p. p < length ground.now.graph) places.now }
    ensures some { IfSome result (λ p. Contains places.now p
        × (kept_at (name_at ground.now.graph p) ground.now.map ≡ None)) }
    ensures none { IfNone result (AreKept ground.now places.now) }
{
    for i in (0..places.len()).rev() {
        if kept(ground, places[i]).is_none() {
            return Some(places[i]);
        }
    }
    None
}

// Whether each of these is the projection of the commit at the place `first` or of an ancestor of it, as far as the
// ancestors from the place `low` on decide it. From 0 on they always do.
fn reaches_each_from(
    ground: &Ground,
    first: u32,
    low: u32,
    projected: &[Shown],
) -> Result<Option<Test>, AllocError>
    requires ground { IsGround ground.now }
    requires first { first < length ground.now.graph }
    requires low { low ≤ first }
    ensures decided { IfOk result (λ o. low ≡ 0 → IsSome o) }
    ensures test { (place : ℕ) → IsBehind ground.now (first ∷ []) place → IfOk result (λ o. IfSome o
        (IsTest ground.now place (first ∷ [])
        (reaches_each ground.now place first (map shown_value projected.now)))) }
{
    let places = ground.graph.ancestors_from(first, low)?;
    if let Some(place) = last_lacking(ground, &places) {
        return Ok(Some(Test::Lacks(place)));
    }
    if are_among(ground, &places, projected) {
        return Ok(Some(Test::Is(true)));
    }
    if low == 0 {
        Ok(Some(Test::Is(false)))
    } else {
        Ok(None)
    }
}

// Whether each of these is the projection of the commit at the place `first` or of an ancestor of it. The newest
// ancestors are looked at first, and older ones only where the newer ones don't decide it.
fn reaches_each(ground: &Ground, first: u32, projected: &[Shown]) -> Result<Test, AllocError>
    requires ground { IsGround ground.now }
    requires first { first < length ground.now.graph }
    ensures { (place : ℕ) → IsBehind ground.now (first ∷ []) place → IfOk result
        (IsTest ground.now place (first ∷ []) (reaches_each ground.now place first (map shown_value projected.now))) }
{
    for width in WIDTHS {
        let low = first.saturating_sub(width);
        if let Some(test) = reaches_each_from(ground, first, low, projected)? {
            return Ok(test);
        }
    }
    match reaches_each_from(ground, first, 0, projected)? {
        None => unreachable!(),
        Some(test) => Ok(test),
    }
}

// Whether m leads the other projections of the commits at these places, from the first that is projected to it.
fn leads(
    ground: &Ground,
    parents: &[u32],
    projected: &[Shown],
    m: &Shown,
) -> Result<Test, AllocError>
    requires ground { IsGround ground.now }
    requires parents { All (λ p. p < length ground.now.graph) parents.now }
    requires kept { AreKept ground.now parents.now }
    requires members { map shown_value projected.now
        ≡ members ground.now.map (names_at ground.now.graph parents.now) }
    ensures { (place : ℕ) → IsBehind ground.now parents.now place →
        IfOk result (IsTest ground.now place parents.now
        (λ ks. leads_upon ground.now place parents.now ks (shown_value m.now))) }
{
    match first_shown_as(ground, parents, m) {
        None => Ok(Test::Is(false)),
        Some(first) => reaches_each(ground, first, projected),
    }
}

// Whether a projection of the commits at these places has the tree and leads the others.
fn has_and_leads(
    ground: &Ground,
    parents: &[u32],
    projected: &[Shown],
    tree: &Name,
    m: &Shown,
) -> Result<Test, AllocError>
    requires ground { IsGround ground.now }
    requires parents { All (λ p. p < length ground.now.graph) parents.now }
    requires kept { AreKept ground.now parents.now }
    requires members { map shown_value projected.now
        ≡ members ground.now.map (names_at ground.now.graph parents.now) }
    ensures { (place : ℕ) → IsBehind ground.now parents.now place →
        IfOk result (IsTest ground.now place parents.now
        (λ ks. same_bytes m.now.tree.0 tree.now.0 && leads_upon ground.now place parents.now ks (shown_value m.now))) }
{
    if m.tree != *tree {
        return Ok(Test::Is(false));
    }
    leads(ground, parents, projected, m)
}

// The first projection of the commits at these places that has the tree and leads the others; or a commit of its own.
fn first_leading(
    ground: &Ground,
    parents: &[u32],
    projected: &[Shown],
    tree: &Name,
) -> Result<Choice, AllocError>
    requires ground { IsGround ground.now }
    requires parents { All (λ p. p < length ground.now.graph) parents.now }
    requires kept { AreKept ground.now parents.now }
    requires members { map shown_value projected.now
        ≡ members ground.now.map (names_at ground.now.graph parents.now) }
    ensures { (place : ℕ) (d : Snapshot) → IsBehind ground.now parents.now place →
        IfOk result (IsChoice ground.now place parents.now d
        (λ ks. member_or (find (λ m. same_bytes m.tree tree.now.0 && leads_upon ground.now place parents.now ks m)
        (map shown_value projected.now)) d)) }
{
    for m in projected {
        match has_and_leads(ground, parents, projected, tree, m)? {
            Test::Lacks(below) => return Ok(Choice::Below(below)),
            Test::Is(true) => return Ok(Choice::Member(*m)),
            Test::Is(false) => {}
        }
    }
    Ok(Choice::New)
}

// Whether the tree of that name has no path.
fn is_empty(store: &Store, tree: &Name) -> bool
    requires { has Tree store.now tree.now.0 ≡ true }
    ensures { result ≡ is_nil (flat store.now tree.now.0) }
{
    match store.stats(tree) {
        None => unreachable!(),
        Some(stats) => stats.files == 0,
    }
}

// What becomes of a commit upon those at these places, of which this tree is shown, upon their projections.
pub(crate) fn chosen(
    ground: &Ground,
    parents: &[u32],
    projected: &[Shown],
    tree: &Name,
) -> Result<Choice, AllocError>
    requires ground { IsGround ground.now }
    requires parents { All (λ p. p < length ground.now.graph) parents.now }
    requires kept { AreKept ground.now parents.now }
    requires members { map shown_value projected.now
        ≡ members ground.now.map (names_at ground.now.graph parents.now) }
    requires tree { has Tree ground.now.store tree.now.0 ≡ true }
    ensures { (place : ℕ) (letter : Letter) → IsBehind ground.now parents.now place →
        IfOk result (IsChoice ground.now place parents.now
        (own (flat ground.now.store tree.now.0) letter (map shown_value projected.now))
        (λ ks. chosen ground.now.rule (leads_upon ground.now place parents.now ks)
        (flat ground.now.store tree.now.0) letter (map shown_value projected.now))) }
{
    match projected {
        [] => {
            if is_empty(&ground.store, tree) {
                Ok(Choice::Nothing)
            } else {
                Ok(Choice::New)
            }
        }
        [m] => {
            if m.tree == *tree {
                Ok(Choice::Member(*m))
            } else {
                Ok(Choice::New)
            }
        }
        _ => match ground.rule {
            Rule::One => Ok(Choice::New),
            Rule::Two => first_leading(ground, parents, projected, tree),
        },
    }
}

/// Whether a commit upon those at these places, of which this tree is shown, is projected to a commit of its own. The
/// ground's map has the projection of each of its commits.
pub fn is_own_upon(
    alloc: Global,
    ground: &Ground,
    parents: &[u32],
    tree: &Name,
) -> Result<bool, AllocError>
    requires ground { IsGround ground.now }
    requires kept { KeepsAll ground.now }
    requires parents { All (λ p. p < length ground.now.graph) parents.now }
    requires tree { has Tree ground.now.store tree.now.0 ≡ true }
    ensures { (letter : Letter) → IfOk result
        (λ b. b ≡ is_own_by ground.now parents.now (flat ground.now.store tree.now.0) letter) }
{
    let projected = members(alloc, ground, parents)?;
    match chosen(ground, parents, &projected, tree)? {
        Choice::Below(_) => unreachable!(),
        Choice::Nothing => Ok(false),
        Choice::Member(_) => Ok(false),
        Choice::New => Ok(true),
    }
}
