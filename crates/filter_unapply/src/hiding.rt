// Leaves that a push would overwrite unseen.
ghost use Rattle.std.specs.Prelude.{◌≡◌, ◌≤◌, true, Some, is_some, length, IfOk, OnOk};
ghost use Rattle.git_objects.specs.Paths.{is_path};
ghost use Rattle.git_objects.specs.Trees.{Leaf as LeafValue, at};
ghost use Rattle.git_objects.specs.declared.kind.Kind.TheVariants.{Tree};
ghost use Rattle.object_store.specs.Objects.{has};
ghost use Rattle.object_store.specs.Unfolding.{flat};
ghost use Rattle.filter_text.specs.Shapes.{shape};
ghost use Rattle.filter_unapply.specs.Laying.{differs_at, is_unseen, unseen};
ghost use Rattle.filter_unapply.specs.Shadows.{IsShadow, is_apart, is_within, meets};
ghost use Rattle.decision_lists.specs.Hits.{image_at};
ghost use Rattle.filter_routes.specs.Images.{image};
ghost use Rattle.filter_routes.specs.Tables.{target};

use decision_lists::Entry;
use filter_routes::{RouteHit, Table, table_law};
use git_objects::{Component, Name};
use object_store::{Store, store_law};
use path_names::Path;
use path_trees::{Walk, entry_at};
use std::alloc::{AllocError, Global};

/// The first path of `base` that the filter of `new` shows and that of `old` doesn't, and that `pushed` hasn't with the
/// same leaf where it is shown. What lies below a directory that no entry of `new` meets is passed by one comparison a
/// leaf.
pub fn unseen(
    alloc: Global,
    store: &Store,
    old: &Table,
    new: &Table,
    base: Name,
    pushed: Name,
) -> Result<Option<Path>, AllocError>
    requires base { has Tree store.now base.0 ≡ true }
    requires pushed { has Tree store.now pushed.0 ≡ true }
    ensures { IfOk result (λ path. path ≡ unseen (shape old.now.filter) (shape new.now.filter)
        (flat store.now base.0) (flat store.now pushed.0)) }
{
    let mut shadow = None;
    first_unseen(alloc, store, old, new, base, pushed, &mut shadow)
}

// The same, with a cone of which `new` shows nothing, if there is one.
fn first_unseen(
    alloc: Global,
    store: &Store,
    old: &Table,
    new: &Table,
    base: Name,
    pushed: Name,
    shadow: &mut Option<Entry>,
) -> Result<Option<Path>, AllocError>
    requires base { has Tree store.now base.0 ≡ true }
    requires pushed { has Tree store.now pushed.0 ≡ true }
    requires shadow { IsShadow (shape new.now.filter) shadow.old }
    ensures { IfOk result (λ path. path ≡ unseen (shape old.now.filter) (shape new.now.filter)
        (flat store.now base.0) (flat store.now pushed.0)) }
{
    store_law(store);
    let mut walk = Walk::new(alloc, store, base)?;
    'leaves: while walk.next()? {
        let path = walk.path();
        if is_unseen_beside(alloc, store, old, new, base, pushed, path, shadow)? {
            return Ok(Some(path.copy(alloc)?));
        }
    }
    Ok(None)
}

// Whether the cone of an entry has a path, if there is one.
fn is_within(shadow: &Option<Entry>, path: &Path) -> bool
    ensures within { result ≡ is_within shadow.now path.now }
    ensures path { is_path path.now ≡ true }
{
    let components = path.components();
    match shadow {
        None => false,
        Some(entry) => entry.has(components),
    }
}

// Whether an entry gives something and its cone has a path of the other's.
fn meets(entry: &Entry, cone: &Entry) -> bool
    ensures { result ≡ meets entry.now cone.now.0 }
{
    if entry.target.is_none() {
        return false;
    }
    entry.covers(cone.point, cone.base.as_slice())
        || cone.covers(entry.point, entry.base.as_slice())
}

// Whether no entry does.
fn is_apart(entries: &[Entry], cone: &Entry) -> bool
    ensures { result ≡ is_apart entries.now cone.now.0 }
{
    for entry in entries {
        if meets(entry, cone) {
            return false;
        }
    }
    true
}

// An entry of all that lies below these components, which gives nothing.
fn cone_below(alloc: Global, front: &[Component]) -> Result<Entry, AllocError> {
    let mut base = Vec::new(alloc);
    for component in front {
        base.push(component.copy(alloc)?)?;
    }
    Ok(Entry {
        point: false,
        base,
        target: None,
    })
}

// All below the highest directory on the way to a path of which the table shows nothing, if there is one.
fn shadow_of(alloc: Global, table: &Table, path: &Path) -> Result<Option<Entry>, AllocError>
    ensures { IfOk result (IsShadow (shape table.now.filter)) }
{
    table_law(table);
    let components = path.components();
    for count in 1..components.len() {
        let cone = cone_below(alloc, &components[..count])?;
        if is_apart(table.entries(), &cone) {
            return Ok(Some(cone));
        }
    }
    Ok(None)
}

// Whether a leaf is unseen, and then a cone of which `new` shows nothing, if there is one: the one before where it has
// the leaf, which is passed then.
fn is_unseen_beside(
    alloc: Global,
    store: &Store,
    old: &Table,
    new: &Table,
    base: Name,
    pushed: Name,
    path: &Path,
    shadow: &mut Option<Entry>,
) -> Result<bool, AllocError>
    requires base { has Tree store.now base.0 ≡ true }
    requires pushed { has Tree store.now pushed.0 ≡ true }
    requires shadow { IsShadow (shape new.now.filter) shadow.old }
    ensures unseen { IfOk result (λ b. (x : LeafValue) → at (flat store.now base.0) path.now ≡ Some x →
        b ≡ is_unseen (shape old.now.filter) (shape new.now.filter) (flat store.now pushed.0) (path.now, x)) }
    ensures shadow { OnOk result (IsShadow (shape new.now.filter) shadow.new) }
{
    if is_within(shadow, path) {
        return Ok(false);
    }
    *shadow = shadow_of(alloc, new, path)?;
    if is_within(shadow, path) {
        return Ok(false);
    }
    is_unseen(alloc, store, old, new, base, pushed, path)
}

// Whether the leaf at a path of `base` is hidden by `old` and shown by `new`, and `pushed` hasn't it where it is shown.
fn is_unseen(
    alloc: Global,
    store: &Store,
    old: &Table,
    new: &Table,
    base: Name,
    pushed: Name,
    path: &Path,
) -> Result<bool, AllocError>
    requires base { has Tree store.now base.0 ≡ true }
    requires pushed { has Tree store.now pushed.0 ≡ true }
    ensures { IfOk result (λ b. (x : LeafValue) → at (flat store.now base.0) path.now ≡ Some x →
        b ≡ is_unseen (shape old.now.filter) (shape new.now.filter) (flat store.now pushed.0) (path.now, x)) }
{
    if old.image(path).is_some() {
        return Ok(false);
    }
    match new.image(path) {
        None => Ok(false),
        Some(hit) => {
            let image = image_of(alloc, new, path, &hit)?;
            Ok(differ(store, base, path, pushed, &image))
        }
    }
}

/// The image that a hit of a table stands for.
pub fn image_of(
    alloc: Global,
    table: &Table,
    path: &Path,
    hit: &RouteHit,
) -> Result<Path, AllocError>
    requires hit { image_at table.now.routes (Some hit.now) path.now ≡ image (shape table.now.filter) path.now }
    requires route { is_some (target table.now hit.now.route) ≡ true }
    requires cut { hit.now.cut ≤ length path.now }
    ensures { IfOk result (λ q. Some q ≡ image (shape table.now.filter) path.now) }
{
    table_law(table);
    Path::of_parts(
        alloc,
        table.target(hit.route),
        &path.components()[hit.cut..],
    )
}

/// Whether the leaf at a path of the first tree doesn't stand at a path of the second. Needs no memory.
pub fn differ(store: &Store, first: Name, path: &Path, second: Name, other: &Path) -> bool
    requires first { has Tree store.now first.0 ≡ true }
    requires second { has Tree store.now second.0 ≡ true }
    ensures { (x : LeafValue) → at (flat store.now first.0) path.now ≡ Some x →
        result ≡ differs_at (flat store.now second.0) x other.now }
{
    store_law(store);
    let Some(found) = entry_at(store, second, other) else {
        return true;
    };
    let Some(own) = entry_at(store, first, path) else {
        return true;
    };
    if own.mode == found.mode {
        return own.name != found.name;
    }
    true
}
