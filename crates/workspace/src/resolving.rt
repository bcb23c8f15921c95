// The filter for a tree.
ghost use Rattle.std.specs.Prelude.{◌≡◌, not, true, Some, [], IfOk, IfSome, IfNone, OnErr, is_none};
ghost use Rattle.std.specs.Option.{option_and_then};
ghost use Rattle.git_objects.specs.Lists.{Each};
ghost use Rattle.git_objects.specs.Trees.{at};
ghost use Rattle.git_objects.specs.declared.kind.Kind.TheVariants.{Blob, Tree};
ghost use Rattle.object_store.specs.Objects.{body_of, has, has_child};
ghost use Rattle.object_store.specs.Unfolding.{flat};
ghost use Rattle.filter_text.specs.Items.{IsMadeOfPaths, items};
ghost use Rattle.filter_text.specs.Shapes.{shape};
ghost use Rattle.filter_text.specs.Views.{item_values, items_read};
ghost use Rattle.filter_routes.specs.Interned.{Interns};
ghost use Rattle.filter_routes.specs.Soundness.{IsSound};
ghost use Rattle.workspace.specs.Laws.{IsUsable};
ghost use Rattle.workspace.specs.Workspaces.{has_unreadable, leaf_items, listed, put_in};
ghost use Rattle.workspace.specs.Workspaces.{readable_items, resolve, text_of};
ghost use Rattle.workspace.specs.Workspaces.{with_leaf};
ghost use Rattle.workspace.specs.Views.{AreUsable, found_value, IsHeldLeaf, leaf_value, parts_value};

use crate::listing::listed;
use crate::parts::{Parts, parts_of};
use crate::place::{add_copies, file_place};
use filter_routes::Tables;
use filter_text::{Filter, Item, ItemsFault, parse_items};
use git_objects::{Mode, Name};
use object_store::Store;
use path_names::Path;
use path_trees::{Leaf, entry_at};
use std::alloc::{AllocError, Global};

/// The filter for a tree.
#[derive(Clone, Copy, Debug, PartialEq, Eq)]
pub struct Resolved {
    /// The number of its table.
    pub table: usize,
    /// Whether the leaf at the workspace place, where there is one, gives items: it is a file or an executable, its
    /// text can be read, and the list that the items make is sound. Without a leaf or a workspace it is true.
    pub readable: bool,
}

// The number of a sound filter's table.
fn interned(tables: &mut Tables, filter: &Filter) -> Result<usize, AllocError>
    requires sound { IsSound (shape filter.now) }
    ensures number { IfOk result (Interns tables.old tables.new (shape filter.now)) }
    ensures err { OnErr result (tables.new ≡ tables.old) }
{
    match tables.intern_if_sound(filter)? {
        None => unreachable!(),
        Some(number) => Ok(number),
    }
}

// The filter with a list in the workspace's place.
fn put_in(alloc: Global, parts: &Parts<'_>, list: Filter) -> Result<Filter, AllocError>
    ensures { IfOk result (λ f. shape f ≡ put_in (parts_value parts.now) (shape list)) }
{
    if parts.before.is_empty() && parts.behind.is_empty() {
        return Ok(list);
    }
    let mut pieces = Vec::new(alloc);
    add_copies(&mut pieces, alloc, parts.before)?;
    pieces.push(list)?;
    add_copies(&mut pieces, alloc, parts.behind)?;
    Ok(Filter::Chain(pieces))
}

// The items of a text; None where it can't be read.
pub fn items_in(alloc: Global, text: &[u8]) -> Result<Option<Vec<Item>>, AllocError>
    ensures items { IfOk result (λ o. items_read o ≡ items text.now) }
    ensures paths { IfOk result (λ o. IfSome o (λ v. Each IsMadeOfPaths (item_values v.items))) }
{
    match parse_items(alloc, text) {
        Ok(items) => Ok(Some(items)),
        Err(ItemsFault::Unreadable) => Ok(None),
        Err(ItemsFault::OutOfMemory) => Err(AllocError),
    }
}

// The bytes of a blob of the store.
pub fn text_at<'a>(store: &'a Store, name: &Name) -> &'a [u8]
    requires held { has Blob store.now name.now.0 ≡ true }
    ensures { result.now ≡ body_of Blob store.now name.now.0 }
{
    match store.get(name) {
        None => unreachable!(),
        Some(object) => object.body,
    }
}

// The items of a leaf; None where it has no text, or one that can't be read.
fn items_of(alloc: Global, store: &Store, leaf: Leaf) -> Result<Option<Vec<Item>>, AllocError>
    requires held { has_child store.now leaf.mode leaf.name.0 ≡ true }
    ensures items { IfOk result (λ o. items_read o ≡ option_and_then items (text_of (leaf_value store.now leaf))) }
    ensures paths { IfOk result (λ o. IfSome o (λ v. Each IsMadeOfPaths (item_values v.items))) }
{
    match leaf.mode {
        Mode::File => items_in(alloc, text_at(store, &leaf.name)),
        Mode::Exec => items_in(alloc, text_at(store, &leaf.name)),
        Mode::Link => Ok(None),
        Mode::Module => Ok(None),
        Mode::Dir => Ok(None),
    }
}

// The number of the filter with the items of a leaf. None: the leaf gives none.
fn with_items(
    alloc: Global,
    store: &Store,
    parts: &Parts<'_>,
    leaf: Leaf,
    tables: &mut Tables,
) -> Result<Option<usize>, AllocError>
    requires parts { AreUsable (parts_value parts.now) }
    requires held { has_child store.now leaf.mode leaf.name.0 ≡ true }
    ensures some { IfOk result (λ o. IfSome o (Interns tables.old tables.new
        (put_in (parts_value parts.now) (listed parts.now.directory.now
        (leaf_items parts.now.directory.now (Some (leaf_value store.now leaf))))))) }
    ensures readable { IfOk result
        (λ o. is_none o ≡ is_none (readable_items parts.now.directory.now (leaf_value store.now leaf))) }
    ensures none { IfOk result (λ o. IfNone o (tables.new ≡ tables.old)) }
    ensures err { OnErr result (tables.new ≡ tables.old) }
{
    match items_of(alloc, store, leaf)? {
        None => Ok(None),
        Some(items) => {
            let list = listed(alloc, parts.directory, &items)?;
            let whole = put_in(alloc, parts, list)?;
            tables.intern_if_sound(&whole)
        }
    }
}

// The number of the filter without items.
fn without_items(alloc: Global, parts: &Parts<'_>, tables: &mut Tables) -> Result<usize, AllocError>
    requires parts { AreUsable (parts_value parts.now) }
    ensures number { IfOk result (Interns tables.old tables.new
        (put_in (parts_value parts.now) (listed parts.now.directory.now []))) }
    ensures err { OnErr result (tables.new ≡ tables.old) }
{
    let list = listed(alloc, parts.directory, &[])?;
    let whole = put_in(alloc, parts, list)?;
    interned(tables, &whole)
}

/// The number of the table of the filter for a tree with this leaf, or none, at the workspace place, and whether the
/// leaf gives items. Of a filter without a workspace it is the filter's own.
pub fn resolve_leaf(
    alloc: Global,
    store: &Store,
    filter: &Filter,
    leaf: Option<Leaf>,
    tables: &mut Tables,
) -> Result<Resolved, AllocError>
    requires usable { IsUsable (shape filter.now) }
    requires held { IsHeldLeaf store.now leaf }
    ensures table { IfOk result (λ r. Interns tables.old tables.new
        (with_leaf (shape filter.now) (found_value store.now leaf)) r.table) }
    ensures readable { IfOk result
        (λ r. r.readable ≡ not (has_unreadable (shape filter.now) (found_value store.now leaf))) }
    ensures err { OnErr result (tables.new ≡ tables.old) }
{
    let Some(parts) = parts_of(filter) else {
        return Ok(Resolved {
            table: interned(tables, filter)?,
            readable: true,
        });
    };
    let Some(leaf) = leaf else {
        return Ok(Resolved {
            table: without_items(alloc, &parts, tables)?,
            readable: true,
        });
    };
    match with_items(alloc, store, &parts, leaf, tables)? {
        Some(table) => Ok(Resolved {
            table,
            readable: true,
        }),
        None => Ok(Resolved {
            table: without_items(alloc, &parts, tables)?,
            readable: false,
        }),
    }
}

/// The leaf at a path of that tree, if one stands there. Needs no memory.
pub fn leaf_at(store: &Store, root: Name, path: &Path) -> Option<Leaf>
    requires root { has Tree store.now root.0 ≡ true }
    ensures leaf { found_value store.now result ≡ at (flat store.now root.0) path.now }
    ensures held { IsHeldLeaf store.now result }
{
    let found = entry_at(store, root, path)?;
    if found.mode.is_dir() {
        return None;
    }
    Some(Leaf {
        mode: found.mode,
        name: found.name,
    })
}

/// The leaf at a path of that tree, if there is a path and a leaf stands there. Needs no memory.
pub fn leaf_where(store: &Store, root: Name, place: &Option<Path>) -> Option<Leaf>
    requires root { has Tree store.now root.0 ≡ true }
    ensures leaf { found_value store.now result ≡ option_and_then (at (flat store.now root.0)) place.now }
    ensures held { IsHeldLeaf store.now result }
{
    match place {
        None => None,
        Some(path) => leaf_at(store, root, path),
    }
}

/// The number of the table of the filter for that tree. Of a filter without a workspace it is the filter's own, and no
/// tree is read.
pub fn resolve(
    alloc: Global,
    store: &Store,
    filter: &Filter,
    root: Name,
    tables: &mut Tables,
) -> Result<usize, AllocError>
    requires usable { IsUsable (shape filter.now) }
    requires root { has Tree store.now root.0 ≡ true }
    ensures number { IfOk result (Interns tables.old tables.new (resolve (shape filter.now) (flat store.now root.0))) }
    ensures err { OnErr result (tables.new ≡ tables.old) }
{
    let place = file_place(alloc, filter)?;
    let leaf = leaf_where(store, root, &place);
    Ok(resolve_leaf(alloc, store, filter, leaf, tables)?.table)
}
