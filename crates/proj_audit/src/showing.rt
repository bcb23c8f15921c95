// The leaf that a filter shows of a commit at a path.
ghost use Rattle.std.specs.Prelude.{◌≡◌, true, IfOk};
ghost use Rattle.std.specs.Option.{option_map};
ghost use Rattle.git_objects.specs.declared.kind.Kind.TheVariants.{Blob};
ghost use Rattle.object_store.specs.Objects.{body_of, has};
ghost use Rattle.filter_text.specs.Shapes.{shape};
ghost use Rattle.filter_routes.specs.Origins.{origin};
ghost use Rattle.workspace.specs.Laws.{IsUsable};
ghost use Rattle.workspace.specs.Workspaces.{place, with_leaf};
ghost use Rattle.proj_audit.specs.Readings.{text_found};
ghost use Rattle.proj_audit.specs.Shown.{GiveSameItems, items_value};
ghost use Rattle.proj_audit.specs.Steps.{Reads, found_value};
ghost use Rattle.proj_audit.specs.Walks.{commit_leaf, items_leaf, leaf_at, shown_leaf};
ghost use Rattle.workspace.specs.Views.{IsHeldLeaf, found_value as stored_value};

use crate::objects::{Needed, Objects, Stop};
use crate::walking::{blob_named, commit_named, leaf_below};
use filter_routes::{Table, Tables};
use filter_text::Filter;
use git_objects::limits::WORKSPACE_BYTES;
use git_objects::{Kind, Mode, Name};
use object_store::Store;
use path_names::Path;
use path_trees::Leaf;
use std::alloc::{AllocError, Global};
use workspace::{file_place, resolve_leaf};

/// The text of a file or an executable at the workspace place.
#[derive(Clone, Copy)]
pub struct ItemsText<'a> {
    pub executable: bool,
    pub bytes: &'a [u8],
}

// The text of a leaf; None where there is no leaf, or a link or a module, which give no items.
fn text_of<'a, O: Objects>(
    objects: &'a O,
    leaf: Option<Leaf>,
    used: &mut Vec<Needed<'a>>,
) -> Result<Option<ItemsText<'a>>, Stop>
    ensures { Reads (option_map items_value) (text_found (O.objects objects.now) (option_map found_value leaf))
        used.old.items used.new.items result }
{
    let Some(leaf) = leaf else {
        return Ok(None);
    };
    match leaf.mode {
        Mode::File => Ok(Some(ItemsText {
            executable: false,
            bytes: blob_named(objects, &leaf.name, used)?,
        })),
        Mode::Exec => Ok(Some(ItemsText {
            executable: true,
            bytes: blob_named(objects, &leaf.name, used)?,
        })),
        Mode::Link => Ok(None),
        Mode::Module => Ok(None),
        Mode::Dir => Ok(None),
    }
}

// The text at a path of that tree, where there is a path.
fn items_at<'a, O: Objects>(
    objects: &'a O,
    root: Name,
    place: &Option<Path>,
    used: &mut Vec<Needed<'a>>,
) -> Result<Option<ItemsText<'a>>, Stop>
    ensures { Reads (option_map items_value) (items_leaf (O.objects objects.now) root.0 place.now) used.old.items
        used.new.items result }
{
    match place {
        None => Ok(None),
        Some(path) => {
            let leaf = leaf_below(objects, root, path.components(), used)?;
            text_of(objects, leaf, used)
        }
    }
}

// The leaf at a path of that tree, where there is a path.
fn leaf_at<'a, O: Objects>(
    objects: &'a O,
    root: Name,
    path: &Option<Path>,
    used: &mut Vec<Needed<'a>>,
) -> Result<Option<Leaf>, Stop>
    ensures { Reads (option_map found_value) (leaf_at (O.objects objects.now) root.0 path.now) used.old.items
        used.new.items result }
{
    match path {
        None => Ok(None),
        Some(path) => leaf_below(objects, root, path.components(), used),
    }
}

// The path that the table's filter shows as this one, if one is.
fn origin_of(alloc: Global, table: &Table, image: &Path) -> Result<Option<Path>, AllocError>
    requires { IsUsable (shape table.now.filter) }
    ensures { IfOk result (λ p. p ≡ origin (shape table.now.filter) image.now) }
{
    let components = image.components();
    match table.origin(image) {
        None => Ok(None),
        Some(hit) => {
            let source = table.source(hit.route);
            Ok(Some(Path::of_parts(alloc, source, &components[hit.cut..])?))
        }
    }
}

// The text, or none in the place of one that is longer than a workspace's file may be: neither gives items. So no long
// text is copied.
fn short_text(text: Option<ItemsText<'_>>) -> Option<ItemsText<'_>>
    ensures { GiveSameItems result text.entry }
{
    let text = text?;
    if text.bytes.len() > WORKSPACE_BYTES {
        return None;
    }
    Some(text)
}

// A store with these bytes as its only blob, and the blob's name.
fn stored_blob(alloc: Global, bytes: &[u8]) -> Result<(Store, Name), AllocError>
    ensures { IfOk result (λ r. (has Blob r.0 r.1.0 ≡ true) × (body_of Blob r.0 r.1.0 ≡ bytes.now)) }
{
    let mut store = Store::new(alloc);
    match store.put_slice(Kind::Blob, bytes) {
        Ok(name) => Ok((store, name)),
        // It can only be memory that is missing.
        Err(_) => Err(AllocError),
    }
}

// A store with the text as its only blob, and the leaf that names it.
fn stored_text(
    alloc: Global,
    text: Option<ItemsText<'_>>,
) -> Result<(Store, Option<Leaf>), AllocError>
    ensures leaf { IfOk result (λ r. stored_value r.0 r.1 ≡ option_map items_value text.entry) }
    ensures held { IfOk result (λ r. IsHeldLeaf r.0 r.1) }
{
    let Some(text) = text else {
        return Ok((Store::new(alloc), None));
    };
    let (store, name) = stored_blob(alloc, text.bytes)?;
    if text.executable {
        return Ok((
            store,
            Some(Leaf {
                mode: Mode::Exec,
                name,
            }),
        ));
    }
    Ok((
        store,
        Some(Leaf {
            mode: Mode::File,
            name,
        }),
    ))
}

// The path that the filter shows as this one, for a tree that has this text at the workspace place.
fn origin_for(
    alloc: Global,
    filter: &Filter,
    text: Option<ItemsText<'_>>,
    path: &Path,
) -> Result<Option<Path>, AllocError>
    requires usable { IsUsable (shape filter.now) }
    ensures { IfOk result
        (λ p. p ≡ origin (with_leaf (shape filter.now) (option_map items_value text.entry)) path.now) }
{
    let (store, leaf) = stored_text(alloc, short_text(text))?;
    let mut tables = Tables::new(alloc);
    let resolved = resolve_leaf(alloc, &store, filter, leaf, &mut tables)?;
    match tables.get(resolved.table) {
        None => unreachable!(),
        Some(table) => origin_of(alloc, table, path),
    }
}

// The leaf that the filter shows at a path, of the tree of that name.
fn shown_leaf<'a, O: Objects>(
    alloc: Global,
    objects: &'a O,
    filter: &Filter,
    path: &Path,
    root: Name,
    used: &mut Vec<Needed<'a>>,
) -> Result<Option<Leaf>, Stop>
    requires usable { IsUsable (shape filter.now) }
    ensures { Reads (option_map found_value) (shown_leaf (O.objects objects.now) (shape filter.now) path.now root.0)
        used.old.items used.new.items result }
{
    let place = file_place(alloc, filter)?;
    let text = items_at(objects, root, &place, used)?;
    let origin = origin_for(alloc, filter, text, path)?;
    leaf_at(objects, root, &origin, used)
}

/// The leaf that the filter shows of the commit of that name at a path. The objects that were needed stand behind those
/// in `used`, each once.
pub(crate) fn commit_leaf<'a, O: Objects>(
    alloc: Global,
    objects: &'a O,
    filter: &Filter,
    path: &Path,
    commit: &Name,
    used: &mut Vec<Needed<'a>>,
) -> Result<Option<Leaf>, Stop>
    requires usable { IsUsable (shape filter.now) }
    ensures { Reads (option_map found_value)
        (commit_leaf (O.objects objects.now) (shape filter.now) path.now commit.now.0)
        used.old.items used.new.items result }
{
    let says = commit_named(objects, commit, used)?;
    shown_leaf(alloc, objects, filter, path, says.tree(), used)
}
