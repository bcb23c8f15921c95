// The original tree of a pushed tree.
ghost use Rattle.std.specs.Prelude.{◌≡◌, ◌<◌, true, length, None};
ghost use Rattle.git_objects.specs.declared.kind.Kind.TheVariants.{Tree};
ghost use Rattle.object_store.specs.Objects.{has};
ghost use Rattle.object_store.specs.Unfolding.{flat};
ghost use Rattle.filter_text.specs.Filters.{Filter as FilterValue};
ghost use Rattle.filter_text.specs.Shapes.{shape};
ghost use Rattle.filter_routes.specs.Interned.{HasAt};
ghost use Rattle.filter_routes.specs.Origins.{lens_of};
ghost use Rattle.filter_unapply.specs.Hands.{IsLaidMade};
ghost use Rattle.filter_unapply.specs.Laying.{laid_through, unseen};
ghost use Rattle.workspace.specs.Laws.{IsUsable};
ghost use Rattle.workspace.specs.Workspaces.{next};
ghost use Rattle.projection_ground.specs.Grounds.{IsGround};
ghost use Rattle.push_laws.specs.PushVerdicts.{judged, original_tree, tree_upon};
ghost use Rattle.push_back.specs.Originals.{Grows};
ghost use Rattle.push_back.specs.Refusals.{IsTreeAnswer};

use crate::TreeRefusal;
use crate::sizes::passed;
use crate::ways::{Way, way_for};
use filter_routes::Table;
use filter_text::Filter;
use filter_unapply::{laid, unseen};
use git_objects::Name;
use object_store::{Store, store_law};
use projection_ground::Ground;
use std::alloc::Global;

// Lays a pushed tree through a table's filter, where what is laid keeps within the limits of a tree.
fn laid_within(
    alloc: Global,
    store: &mut Store,
    table: &Table,
    base: Name,
    pushed: Name,
) -> Result<Name, TreeRefusal>
    requires base { has Tree store.old base.0 ≡ true }
    requires pushed { has Tree store.old pushed.0 ≡ true }
    ensures { IsTreeAnswer
        (judged None
        (laid_through (lens_of (shape table.now.filter)) (flat store.old base.0) (flat store.old pushed.0)))
        (IsLaidMade (shape table.now.filter) (flat store.old base.0) (flat store.old pushed.0))
        store.old store.new result }
{
    store_law(store);
    let root = laid(alloc, store, table, base, pushed)?;
    match passed(store, &root) {
        None => Ok(root),
        Some(which) => Err(TreeRefusal::TreeLimit { which }),
    }
}

// Lays a pushed tree through the new table's filter, where it overwrites nothing that only that filter shows, and where
// what is laid keeps within the limits of a tree.
fn laid_unless_unseen(
    alloc: Global,
    store: &mut Store,
    old: &Table,
    new: &Table,
    base: Name,
    pushed: Name,
) -> Result<Name, TreeRefusal>
    requires base { has Tree store.old base.0 ≡ true }
    requires pushed { has Tree store.old pushed.0 ≡ true }
    ensures { IsTreeAnswer
        (judged (unseen (shape old.now.filter) (shape new.now.filter) (flat store.old base.0) (flat store.old pushed.0))
        (laid_through (lens_of (shape new.now.filter)) (flat store.old base.0) (flat store.old pushed.0)))
        (IsLaidMade (shape new.now.filter) (flat store.old base.0) (flat store.old pushed.0))
        store.old store.new result }
{
    store_law(store);
    if let Some(path) = unseen(alloc, store, old, new, base, pushed)? {
        return Err(TreeRefusal::Unseen { path });
    }
    laid_within(alloc, store, new, base, pushed)
}

// The same by the numbers of the tables. Where both are one, nothing is unseen, and no path is looked at.
fn laid_by(
    alloc: Global,
    ground: &mut Ground,
    way: Way,
    base: Name,
    pushed: Name,
) -> Result<Name, TreeRefusal>
    requires ground { IsGround ground.old }
    requires base { has Tree ground.old.store base.0 ≡ true }
    requires pushed { has Tree ground.old.store pushed.0 ≡ true }
    requires old { way.old < length ground.old.tables }
    requires new { way.new < length ground.old.tables }
    ensures answer { (r r2 : FilterValue) → HasAt ground.old.tables r way.old → HasAt ground.old.tables r2 way.new
        → IsTreeAnswer
        (judged (unseen r r2 (flat ground.old.store base.0) (flat ground.old.store pushed.0))
        (laid_through (lens_of r2) (flat ground.old.store base.0) (flat ground.old.store pushed.0)))
        (IsLaidMade r2 (flat ground.old.store base.0) (flat ground.old.store pushed.0))
        ground.old.store ground.new.store result }
    ensures rest { ground.new ≡ record ground.old { store = ground.new.store } }
{
    let Some(old) = ground.tables.get(way.old) else {
        unreachable!()
    };
    let Some(new) = ground.tables.get(way.new) else {
        unreachable!()
    };
    if way.old == way.new {
        return laid_within(alloc, &mut ground.store, new, base, pushed);
    }
    laid_unless_unseen(alloc, &mut ground.store, old, new, base, pushed)
}

/// Works out the original tree of a pushed tree upon the original tree `base`, where the commit before it shows `seen`;
/// and puts it into the store. Nothing is made before the refusals `NoChange`, `BadWorkspace` and `Unseen`.
pub fn original_tree(
    alloc: Global,
    ground: &mut Ground,
    filter: &Filter,
    base: Name,
    seen: Name,
    pushed: Name,
) -> Result<Name, TreeRefusal>
    requires usable { IsUsable (shape filter.now) }
    requires ground { IsGround ground.old }
    requires base { has Tree ground.old.store base.0 ≡ true }
    requires seen { has Tree ground.old.store seen.0 ≡ true }
    requires pushed { has Tree ground.old.store pushed.0 ≡ true }
    ensures answer { IsTreeAnswer
        (original_tree (shape filter.now) (flat ground.old.store base.0) (flat ground.old.store seen.0)
        (flat ground.old.store pushed.0))
        (IsLaidMade (next (shape filter.now) (flat ground.old.store base.0) (flat ground.old.store pushed.0))
        (flat ground.old.store base.0) (flat ground.old.store pushed.0))
        ground.old.store ground.new.store result }
    ensures same { Grows
        (IsLaidMade (next (shape filter.now) (flat ground.old.store base.0) (flat ground.old.store pushed.0))
        (flat ground.old.store base.0) (flat ground.old.store pushed.0))
        ground.old ground.new }
{
    if pushed == seen {
        return Err(TreeRefusal::NoChange);
    }
    tree_upon(alloc, ground, filter, base, pushed)
}

/// The original tree of a pushed one upon the original tree before it, which isn't asked whether it shows another one.
/// Nothing is made before the refusals `BadWorkspace` and `Unseen`.
pub fn tree_upon(
    alloc: Global,
    ground: &mut Ground,
    filter: &Filter,
    base: Name,
    pushed: Name,
) -> Result<Name, TreeRefusal>
    requires usable { IsUsable (shape filter.now) }
    requires ground { IsGround ground.old }
    requires base { has Tree ground.old.store base.0 ≡ true }
    requires pushed { has Tree ground.old.store pushed.0 ≡ true }
    ensures answer { IsTreeAnswer
        (tree_upon (shape filter.now) (flat ground.old.store base.0) (flat ground.old.store pushed.0))
        (IsLaidMade (next (shape filter.now) (flat ground.old.store base.0) (flat ground.old.store pushed.0))
        (flat ground.old.store base.0) (flat ground.old.store pushed.0))
        ground.old.store ground.new.store result }
    ensures same { Grows
        (IsLaidMade (next (shape filter.now) (flat ground.old.store base.0) (flat ground.old.store pushed.0))
        (flat ground.old.store base.0) (flat ground.old.store pushed.0))
        ground.old ground.new }
{
    let way = way_for(
        alloc,
        &ground.store,
        &mut ground.tables,
        filter,
        base,
        pushed,
    )?;
    if way.is_bad {
        return Err(TreeRefusal::BadWorkspace);
    }
    laid_by(alloc, ground, way, base, pushed)
}
