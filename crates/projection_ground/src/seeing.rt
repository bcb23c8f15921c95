// What a filter shows of a commit's tree.
ghost use Rattle.std.specs.Prelude.{◌≡◌, ◌<◌, ◌↔◌, true, length, IfOk, IsTrue};
ghost use Rattle.git_objects.specs.declared.kind.Kind.TheVariants.{Tree};
ghost use Rattle.object_store.specs.Objects.{has};
ghost use Rattle.object_store.specs.Unfolding.{flat};
ghost use Rattle.filter_text.specs.Filters.{Filter as FilterValue};
ghost use Rattle.filter_text.specs.Shapes.{shape};
ghost use Rattle.filter_routes.specs.Interned.{HasAt};
ghost use Rattle.workspace.specs.Laws.{IsUsable};
ghost use Rattle.workspace.specs.Views.{IsHeldLeaf, found_value};
ghost use Rattle.workspace.specs.Workspaces.{resolve, with_leaf};
ghost use Rattle.projection_ground.specs.Grounds.{Extends, IsGround};
ghost use Rattle.projection_ground.specs.Asked.{IsAskedFor, IsNone, IsShownBy};

use crate::Ground;
use filter_apply::{ApplyError, shown};
use filter_text::Filter;
use git_objects::{Name, Steps};
use path_trees::Leaf;
use std::alloc::{AllocError, Global};
use std::marker::Brand;
use std::sync::ledger::{Blank, Ledger};
use workspace::{file_place, leaf_where, resolve, resolve_leaf};

/// What is known of a filter while its projections are worked out.
#[derive(Clone, Copy)]
pub struct Asked {
    /// The number of the filter's table, where one table serves every tree.
    pub table: Option<usize>,
    /// The tree of which was asked last, and what is shown of it.
    pub last: Option<(Name, Name)>,
    /// The leaf, or none, that stood last at the workspace place, and the number of the table of the filter for trees
    /// with it.
    pub leaf: Option<(Option<Leaf>, usize)>,
}

impl Asked {
    /// What is known at first: the table, where no workspace file has a say in it.
    pub fn new(
        alloc: Global,
        ground: &mut Ground,
        filter: &Filter,
        root: Name,
    ) -> Result<Asked, AllocError>
        requires usable { IsUsable (shape filter.now) }
        requires ground { IsGround ground.old }
        requires root { has Tree ground.old.store root.0 ≡ true }
        ensures asked { IfOk result (IsAskedFor (shape filter.now) ground.new) }
        ensures same { Extends IsNone ground.old ground.new }
        ensures map { ground.new.map ≡ ground.old.map }
    {
        if file_place(alloc, filter)?.is_some() {
            return Ok(Asked {
                table: None,
                last: None,
                leaf: None,
            });
        }
        let number = resolve(alloc, &ground.store, filter, root, &mut ground.tables)?;
        Ok(Asked {
            table: Some(number),
            last: None,
            leaf: None,
        })
    }
}

// Whether these are one leaf.
fn are_one(last: &Leaf, leaf: &Leaf) -> bool
    ensures { IsTrue result ↔ (last.now ≡ leaf.now) }
{
    last.mode == leaf.mode && last.name == leaf.name
}

// Whether the leaf, or none, is the one that stood last.
fn is_last(last: Option<Leaf>, leaf: Option<Leaf>) -> bool
    ensures { IsTrue result ↔ (last ≡ leaf) }
{
    match (last, leaf) {
        (None, None) => true,
        (Some(last), Some(leaf)) => are_one(&last, &leaf),
        _ => false,
    }
}

// The number of the table of the filter for trees with this leaf, or none, at the workspace place. Of the leaf that
// stood there last nothing is read again.
fn number_with(
    alloc: Global,
    ground: &mut Ground,
    filter: &Filter,
    asked: &mut Asked,
    leaf: Option<Leaf>,
) -> Result<usize, AllocError>
    requires usable { IsUsable (shape filter.now) }
    requires ground { IsGround ground.old }
    requires held { IsHeldLeaf ground.old.store leaf }
    requires asked { IsAskedFor (shape filter.now) ground.old asked.old }
    ensures number { IfOk result
        (HasAt ground.new.tables (with_leaf (shape filter.now) (found_value ground.old.store leaf))) }
    ensures same { Extends IsNone ground.old ground.new }
    ensures map { ground.new.map ≡ ground.old.map }
    ensures asked { IsAskedFor (shape filter.now) ground.new asked.new }
{
    if let Some((last, number)) = asked.leaf {
        if is_last(last, leaf) {
            return Ok(number);
        }
    }
    let number = resolve_leaf(alloc, &ground.store, filter, leaf, &mut ground.tables)?.table;
    asked.leaf = Some((leaf, number));
    Ok(number)
}

// The number of the table of the filter for a tree.
fn number_for(
    alloc: Global,
    ground: &mut Ground,
    filter: &Filter,
    asked: &mut Asked,
    root: Name,
) -> Result<usize, AllocError>
    requires usable { IsUsable (shape filter.now) }
    requires ground { IsGround ground.old }
    requires root { has Tree ground.old.store root.0 ≡ true }
    requires asked { IsAskedFor (shape filter.now) ground.old asked.old }
    ensures number { IfOk result
        (HasAt ground.new.tables (resolve (shape filter.now) (flat ground.old.store root.0))) }
    ensures same { Extends IsNone ground.old ground.new }
    ensures map { ground.new.map ≡ ground.old.map }
    ensures asked { IsAskedFor (shape filter.now) ground.new asked.new }
{
    if let Some(number) = asked.table {
        return Ok(number);
    }
    let place = file_place(alloc, filter)?;
    let leaf = leaf_where(&ground.store, root, &place);
    number_with(alloc, ground, filter, asked, leaf)
}

// What the table of that number shows of a tree.
fn shown_by<L: Ledger>(
    alloc: Global,
    ground: &mut Ground,
    number: usize,
    root: Name,
    blank: Blank,
) -> Result<Name, ApplyError>
    requires name { blank.name ≡ L.name }
    requires parts { blank.parts ≡ L.parts }
    requires some { 0 < blank.parts }
    requires ground { IsGround ground.old }
    requires root { has Tree ground.old.store root.0 ≡ true }
    requires number { number < length ground.old.tables }
    ensures { (f : FilterValue) → HasAt ground.old.tables f number →
        IsShownBy f root.0 ground.old ground.new result }
{
    let mut steps = Steps::<L>::new(blank);
    let Some(table) = ground.tables.get(number) else {
        unreachable!()
    };
    shown(
        alloc,
        &mut ground.store,
        table,
        number,
        root,
        &mut ground.memo,
        &mut steps,
    )
}

/// The tree that a filter shows of a tree of the store, which has it then. Of the tree that was asked of last nothing
/// is worked out again.
pub fn seen(
    alloc: Global,
    ground: &mut Ground,
    filter: &Filter,
    asked: &mut Asked,
    root: Name,
) -> Result<Name, ApplyError>
    requires usable { IsUsable (shape filter.now) }
    requires ground { IsGround ground.old }
    requires root { has Tree ground.old.store root.0 ≡ true }
    requires asked { IsAskedFor (shape filter.now) ground.old asked.old }
    ensures shown { IsShownBy (resolve (shape filter.now) (flat ground.old.store root.0)) root.0
        ground.old ground.new result }
    ensures asked { IsAskedFor (shape filter.now) ground.new asked.new }
{
    if let Some((tree, shown)) = asked.last {
        if tree == root {
            return Ok(shown);
        }
    }
    let number = number_for(alloc, ground, filter, asked, root)?;
    // Nobody asks for the bodies that are read.
    let shown = shown_by::<Brand>(alloc, ground, number, root, Blank::new(1))?;
    asked.last = Some((root, shown));
    Ok(shown)
}
