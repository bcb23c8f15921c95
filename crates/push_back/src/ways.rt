// The filters by which a pushed tree is laid.
ghost use Rattle.std.specs.Prelude.{◌≡◌, ◌<◌, ◌&&◌, ◌||◌, not, true, Some, length, IfOk};
ghost use Rattle.std.specs.Option.{option_and_then};
ghost use Rattle.git_objects.specs.Trees.{at};
ghost use Rattle.git_objects.specs.declared.kind.Kind.TheVariants.{Tree};
ghost use Rattle.object_store.specs.Objects.{has};
ghost use Rattle.object_store.specs.Unfolding.{flat};
ghost use Rattle.filter_text.specs.Filters.{Filter as FilterValue};
ghost use Rattle.filter_text.specs.Shapes.{shape};
ghost use Rattle.filter_routes.specs.Images.{image};
ghost use Rattle.filter_routes.specs.Interned.{HasAt};
ghost use Rattle.workspace.specs.Laws.{IsUsable};
ghost use Rattle.workspace.specs.Workspaces.{place, resolve, shown_place};
ghost use Rattle.projection_ground.specs.Grounds.{AreInFront};
ghost use Rattle.push_laws.specs.PushVerdicts.{same_found, same_place};
ghost use Rattle.push_back.specs.Originals.{IsWay};

use filter_routes::{Table, Tables};
use filter_text::Filter;
use filter_unapply::{differ, image_of, order};
use git_objects::Name;
use object_store::Store;
use path_names::Path;
use std::alloc::{AllocError, Global};
use workspace::{Resolved, file_place, leaf_at, resolve, resolve_leaf};

// How a pushed tree is laid into a tree.
#[derive(Clone, Copy)]
pub(crate) struct Way {
    // The number of the table of the filter for the tree below.
    pub(crate) old: usize,
    // The number of the table of the filter by which it is laid.
    pub(crate) new: usize,
    // Whether the workspace's file is changed to a bad one.
    pub(crate) is_bad: bool,
}

// The path that a table's filter shows for a path, if one is.
fn image(alloc: Global, table: &Table, path: &Path) -> Result<Option<Path>, AllocError>
    ensures { IfOk result (λ q. q ≡ image (shape table.now.filter) path.now) }
{
    match table.image(path) {
        None => Ok(None),
        Some(hit) => Ok(Some(image_of(alloc, table, path, &hit)?)),
    }
}

// The path that the filter of that number shows for a path, if there is a path and one is.
fn image_where(
    alloc: Global,
    tables: &Tables,
    number: usize,
    file: &Option<Path>,
) -> Result<Option<Path>, AllocError>
    requires number { number < length tables.now }
    ensures { (f : FilterValue) → HasAt tables.now f number
        → IfOk result (λ q. q ≡ option_and_then (image f) file.now) }
{
    match file {
        None => Ok(None),
        Some(path) => match tables.get(number) {
            None => unreachable!(),
            Some(table) => image(alloc, table, path),
        },
    }
}

// Whether the filter of that number shows a path, if there is one, as that one.
fn is_shown_at(
    alloc: Global,
    tables: &Tables,
    number: usize,
    file: &Option<Path>,
    shown: &Path,
) -> Result<bool, AllocError>
    requires number { number < length tables.now }
    ensures { (f : FilterValue) → HasAt tables.now f number
        → IfOk result (λ b. b ≡ same_place (option_and_then (image f) file.now) (Some shown.now)) }
{
    match image_where(alloc, tables, number, file)? {
        None => Ok(false),
        Some(image) => Ok(order(&image, shown).is_eq()),
    }
}

// Whether the pushed tree has another leaf at a path than the tree below has at the file's place, or one of them has
// none.
fn is_changed(store: &Store, base: Name, file: &Option<Path>, pushed: Name, shown: &Path) -> bool
    requires base { has Tree store.now base.0 ≡ true }
    requires pushed { has Tree store.now pushed.0 ≡ true }
    ensures { result ≡ not (same_found (at (flat store.now pushed.0) shown.now)
        (option_and_then (at (flat store.now base.0)) file.now)) }
{
    match file {
        None => leaf_at(store, pushed, shown).is_some(),
        Some(path) => match leaf_at(store, pushed, shown) {
            None => leaf_at(store, base, path).is_some(),
            Some(_) => differ(store, pushed, shown, base, path),
        },
    }
}

// Whether the workspace's file is changed to one that can't be read, or that the next filter doesn't show there.
fn is_bad(
    alloc: Global,
    store: &Store,
    tables: &Tables,
    next: Resolved,
    base: Name,
    file: &Option<Path>,
    pushed: Name,
    shown: &Path,
) -> Result<bool, AllocError>
    requires base { has Tree store.now base.0 ≡ true }
    requires pushed { has Tree store.now pushed.0 ≡ true }
    requires number { next.table < length tables.now }
    ensures { (f : FilterValue) → HasAt tables.now f next.table → IfOk result (λ b. b
        ≡ (not (same_found (at (flat store.now pushed.0) shown.now)
        (option_and_then (at (flat store.now base.0)) file.now))
        && (not next.readable || not (same_place (option_and_then (image f) file.now) (Some shown.now))))) }
{
    if !is_changed(store, base, file, pushed, shown) {
        return Ok(false);
    }
    if !next.readable {
        return Ok(true);
    }
    let stays = is_shown_at(alloc, tables, next.table, file, shown)?;
    Ok(!stays)
}

// The way of a pushed tree that shows the workspace's file at a path.
fn next_way(
    alloc: Global,
    store: &Store,
    tables: &mut Tables,
    filter: &Filter,
    base: Name,
    pushed: Name,
    old: usize,
    file: &Option<Path>,
    shown: &Path,
) -> Result<Way, AllocError>
    requires usable { IsUsable (shape filter.now) }
    requires base { has Tree store.now base.0 ≡ true }
    requires pushed { has Tree store.now pushed.0 ≡ true }
    requires file { file.now ≡ place (shape filter.now) }
    requires shown { shown_place (shape filter.now) (flat store.now base.0) ≡ Some shown.now }
    requires old { HasAt tables.old (resolve (shape filter.now) (flat store.now base.0)) old }
    ensures way { IfOk result (IsWay (shape filter.now) (flat store.now base.0) (flat store.now pushed.0) tables.new) }
    ensures tables { AreInFront tables.old tables.new }
{
    let leaf = leaf_at(store, pushed, shown);
    let next = resolve_leaf(alloc, store, filter, leaf, tables)?;
    let is_bad = is_bad(alloc, store, tables, next, base, file, pushed, shown)?;
    Ok(Way {
        old,
        new: next.table,
        is_bad,
    })
}

// How a pushed tree is laid into a tree: by the file in it, where the filter for the tree below shows the file.
pub(crate) fn way_for(
    alloc: Global,
    store: &Store,
    tables: &mut Tables,
    filter: &Filter,
    base: Name,
    pushed: Name,
) -> Result<Way, AllocError>
    requires usable { IsUsable (shape filter.now) }
    requires base { has Tree store.now base.0 ≡ true }
    requires pushed { has Tree store.now pushed.0 ≡ true }
    ensures way { IfOk result (IsWay (shape filter.now) (flat store.now base.0) (flat store.now pushed.0) tables.new) }
    ensures tables { AreInFront tables.old tables.new }
{
    let file = file_place(alloc, filter)?;
    let old = resolve(alloc, store, filter, base, tables)?;
    match image_where(alloc, tables, old, &file)? {
        None => Ok(Way {
            old,
            new: old,
            is_bad: false,
        }),
        Some(shown) => next_way(
            alloc, store, tables, filter, base, pushed, old, &file, &shown,
        ),
    }
}
