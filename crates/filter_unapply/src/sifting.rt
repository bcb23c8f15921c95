// What a decision list takes out of a tree, or leaves in it.
ghost use Rattle.std.specs.Prelude.{◌≡◌, ◌<◌, ◌≤◌, [], true, false, Some, if◌then◌else◌, drop, length, IfOk};
ghost use Rattle.std.specs.Prelude.{IfErr, OnOk};
ghost use Rattle.git_objects.specs.Trees.{Flat};
ghost use Rattle.git_objects.specs.declared.kind.Kind.TheVariants.{Tree};
ghost use Rattle.object_store.specs.Growth.{IsGrownBy, IsOnly};
ghost use Rattle.object_store.specs.Objects.{IsStore, has};
ghost use Rattle.object_store.specs.Unfolding.{flat, StandsFor};
ghost use Rattle.stage_tree.specs.Stages.{Shows};
ghost use Rattle.decision_lists.specs.Entries.{base, cone_of};
ghost use Rattle.filter_apply.specs.Founds.{AreFoundAt, IsFoundAt};
ghost use Rattle.filter_unapply.specs.Hands.{IsFaultOf, IsIn, IsMadeOf};
ghost use Rattle.filter_unapply.specs.Sifted.{IsFitting, IsRun, IsShown, IsWithin, asked, fitted, put_back};
ghost use Rattle.filter_unapply.specs.Sifted.{sifted, stays, taken_out};

use crate::LayFault;
use decision_lists::Entry;
use filter_apply::founds_of;
use git_objects::{Name, Steps};
use object_store::{Store, store_law};
use path_names::Path;
use path_trees::{Found, entry_at, taken_in};
use stage_tree::Stage;
use std::alloc::{AllocError, Global};
use std::marker::Brand;
use std::sync::ledger::{Blank, Ledger};

// The tree of the paths that the list gives something, or of the others. Whole directories are taken by their names,
// and only those on the way to the list's cones are made anew, each once.
pub fn sifted(
    alloc: Global,
    store: &mut Store,
    list: &[Entry],
    inside: bool,
    root: Name,
) -> Result<Name, LayFault>
    requires root { has Tree store.old root.0 ≡ true }
    ensures ok { IfOk result (λ n. StandsFor store.new n.0
        (sifted inside list.now (flat store.old root.0))) }
    ensures err { IfErr result (IsFaultOf (IsMadeOf (IsIn (flat store.old root.0))) store.new) }
    ensures store { IsGrownBy (IsMadeOf (IsIn (flat store.old root.0))) store.old store.new }
{
    store_law(store);
    let mut stage = staged(alloc, store, list, inside, root)?;
    Ok(stage.finish(store)?)
}

// A stage that shows the tree of these paths.
fn staged(
    alloc: Global,
    store: &Store,
    list: &[Entry],
    inside: bool,
    root: Name,
) -> Result<Stage, AllocError>
    requires root { has Tree store.now root.0 ≡ true }
    ensures { IfOk result (λ s. Shows store.now s (sifted inside list.now (flat store.now root.0))) }
{
    store_law(store);
    let founds = founds_by::<Brand>(alloc, store, list, root, Blank::new(1))?;
    let mut stage = start(alloc, store, inside, root)?;
    let mut end = list.len();
    'runs: while end > 0 {
        let first = run_start(list, end);
        with_run(
            alloc, store, list, &founds, first, end, inside, root, &mut stage,
        )?;
        end = first;
    }
    Ok(stage)
}

// What stands at the bases of entries.
fn founds_by<L: Ledger>(
    alloc: Global,
    store: &Store,
    list: &[Entry],
    root: Name,
    blank: Blank,
) -> Result<Vec<Option<Found>>, AllocError>
    requires blank { (blank.name ≡ L.name) × (blank.parts ≡ L.parts) × (0 < blank.parts) }
    requires root { has Tree store.now root.0 ≡ true }
    ensures { IfOk result (λ v. AreFoundAt store.now (flat store.now root.0) list.now v.items) }
{
    let mut steps = Steps::<L>::new(blank);
    founds_of(alloc, store, root, list, &mut steps)
}

// Where the run of entries begins that ends at a place, and that all have targets or all have none.
fn run_start(list: &[Entry], end: usize) -> usize
    requires some { 0 < end }
    requires within { end ≤ length list.now }
    ensures before { result < end }
    ensures alike { IsRun list.now result end }
{
    let mut first = end - 1;
    let kept = stays(&list[first], true);
    'entries: while first > 0 && stays(&list[first - 1], true) == kept {
        first -= 1;
    }
    first
}

// Changes what a stage shows by the entries of a run, of which each takes out what it has, or each puts it back: so they
// may be asked in any order, and are in that of the list, which mostly is the order of their bases.
fn with_run(
    alloc: Global,
    store: &Store,
    list: &[Entry],
    founds: &[Option<Found>],
    first: usize,
    end: usize,
    inside: bool,
    root: Name,
    stage: &mut Stage,
) -> Result<(), AllocError>
    requires root { has Tree store.now root.0 ≡ true }
    requires founds { AreFoundAt store.now (flat store.now root.0) list.now founds.now }
    requires before { first ≤ end }
    requires within { end ≤ length list.now }
    requires alike { IsRun list.now first end }
    requires shows { Shows store.now stage.old (sifted inside (drop end list.now) (flat store.now root.0)) }
    ensures { OnOk result
        (Shows store.now stage.new (sifted inside (drop first list.now) (flat store.now root.0))) }
{
    store_law(store);
    for i in first..end {
        with_entry(alloc, store, &list[i], founds[i], inside, root, stage)?;
    }
    Ok(())
}

// A stage that shows what an empty list leaves.
fn start(alloc: Global, store: &Store, inside: bool, root: Name) -> Result<Stage, AllocError>
    requires root { has Tree store.now root.0 ≡ true }
    ensures { IfOk result (λ s. Shows store.now s (sifted inside [] (flat store.now root.0))) }
{
    store_law(store);
    if inside {
        return Stage::empty(alloc);
    }
    Stage::begin(alloc, store, root)
}

// Takes the paths that a list gives something out of what a stage shows, a part of a tree. A list of one entry with a
// target takes all that the entry has. Another list may leave some of it, as the part has it: the part is stored,
// sifted by the list, and a stage begins with what is left.
pub fn without(
    alloc: Global,
    store: &mut Store,
    list: &[Entry],
    root: Name,
    stage: &mut Stage,
) -> Result<(), LayFault>
    requires root { has Tree store.old root.0 ≡ true }
    requires shows { (u : Flat) × (Shows store.old stage.old u) × IsWithin u (flat store.old root.0) }
    ensures ok { OnOk result ((u : Flat) → Shows store.old stage.old u → IsWithin u (flat store.old root.0) →
        Shows store.new stage.new (sifted false list.now u)) }
    ensures err { IfErr result (IsFaultOf (IsMadeOf (IsIn (flat store.old root.0))) store.new) }
    ensures store { IsGrownBy (IsMadeOf (IsIn (flat store.old root.0))) store.old store.new }
{
    store_law(store);
    if list.is_empty() {
        return Ok(());
    }
    if list.len() == 1 && stays(&list[0], true) {
        let founds = founds_by::<Brand>(alloc, store, list, root, Blank::new(1))?;
        with_entry(alloc, store, &list[0], founds[0], false, root, stage)?;
        return Ok(());
    }
    let part = stage.finish(store)?;
    let rest = sifted(alloc, store, list, false, part)?;
    *stage = Stage::begin(alloc, store, rest)?;
    Ok(())
}

// The empty tree.
pub fn empty(store: &mut Store) -> Result<Name, LayFault>
    ensures ok { IfOk result (λ n. StandsFor store.new n.0 []) }
    ensures err { IfErr result (IsFaultOf (IsOnly Tree []) store.new) }
    ensures store { IsGrownBy (IsOnly Tree []) store.old store.new }
{
    Ok(taken_in(store, &[])?)
}

// Changes what a stage shows, a part of a tree, by one entry more, which is asked before those that made the part.
fn with_entry(
    alloc: Global,
    store: &Store,
    entry: &Entry,
    found: Option<Found>,
    inside: bool,
    root: Name,
    stage: &mut Stage,
) -> Result<(), AllocError>
    requires root { has Tree store.now root.0 ≡ true }
    requires found { IsFoundAt store.now (flat store.now root.0) (base entry.now.0) found }
    requires shows { (u : Flat) × Shows store.now stage.old u }
    ensures { OnOk result ((u : Flat) → Shows store.now stage.old u → IsWithin u (flat store.now root.0) →
        IsShown store.now stage.new (asked inside entry.now (flat store.now root.0) u)) }
{
    store_law(store);
    let stays = stays(entry, inside);
    if entry.base.as_slice().is_empty() {
        return with_all(alloc, store, entry.point, stays, root, stage);
    }
    let path = Path::of_parts(alloc, entry.base.as_slice(), &[])?;
    if stays {
        return put_back(store, entry.point, &path, found, root, stage);
    }
    taken_out(store, entry.point, &path, found, root, stage)
}

// Whether a path stays that an entry has.
fn stays(entry: &Entry, inside: bool) -> bool
    ensures { result ≡ stays inside entry.now.1 }
{
    entry.target.is_some() == inside
}

// Changes what a stage shows by an entry of all paths below the root, or of the root itself, which is no path.
fn with_all(
    alloc: Global,
    store: &Store,
    point: bool,
    stays: bool,
    root: Name,
    stage: &mut Stage,
) -> Result<(), AllocError>
    requires root { has Tree store.now root.0 ≡ true }
    requires shows { (u : Flat) × Shows store.now stage.old u }
    ensures { OnOk result ((u : Flat) → Shows store.now stage.old u → IsWithin u (flat store.now root.0) →
        IsShown store.now stage.new
        (if stays then put_back (cone_of point []) (flat store.now root.0) u else taken_out (cone_of point []) u)) }
{
    store_law(store);
    if point {
        return Ok(());
    }
    if stays {
        *stage = Stage::begin(alloc, store, root)?;
        return Ok(());
    }
    stage.clear();
    Ok(())
}

// Puts what the cone has in the whole tree into what a stage shows.
fn put_back(
    store: &Store,
    point: bool,
    path: &Path,
    found: Option<Found>,
    root: Name,
    stage: &mut Stage,
) -> Result<(), AllocError>
    requires root { has Tree store.now root.0 ≡ true }
    requires found { IsFoundAt store.now (flat store.now root.0) path.now found }
    requires shows { (u : Flat) × Shows store.now stage.old u }
    ensures { OnOk result ((u : Flat) → Shows store.now stage.old u → IsWithin u (flat store.now root.0) →
        IsShown store.now stage.new (put_back (cone_of point path.now) (flat store.now root.0) u)) }
{
    store_law(store);
    if let Some(found) = fitted(point, found) {
        stage.put(store, path, found)?;
    }
    Ok(())
}

// Takes what the cone has out of what a stage shows, a part of a tree: where the tree has nothing in the cone, neither
// has the part.
fn taken_out(
    store: &Store,
    point: bool,
    path: &Path,
    found: Option<Found>,
    root: Name,
    stage: &mut Stage,
) -> Result<(), AllocError>
    requires root { has Tree store.now root.0 ≡ true }
    requires found { IsFoundAt store.now (flat store.now root.0) path.now found }
    requires shows { (u : Flat) × Shows store.now stage.old u }
    ensures { OnOk result ((u : Flat) → Shows store.now stage.old u → IsWithin u (flat store.now root.0) →
        IsShown store.now stage.new (taken_out (cone_of point path.now) u)) }
{
    store_law(store);
    if let Some(_) = fitted(point, found) {
        stage.remove(store, path)?;
    }
    Ok(())
}

// What was found, where it is of this kind: a leaf for one path alone, or else a directory.
fn fitted(point: bool, found: Option<Found>) -> Option<Found>
    ensures { result ≡ fitted point found }
{
    match found {
        Some(found) if found.mode.is_dir() != point => Some(found),
        _ => None,
    }
}

// What stands at a path: the leaf, or the directory of all below it. Nothing where the other kind stands there.
pub fn fitting(store: &Store, root: Name, point: bool, path: &Path) -> Option<Found>
    requires root { has Tree store.now root.0 ≡ true }
    ensures found { IsFitting store.now (flat store.now root.0) point path.now result }
    ensures store { IsStore store.now }
{
    store_law(store);
    fitted(point, entry_at(store, root, path))
}
