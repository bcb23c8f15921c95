// The filter for a tree, and what filters show of trees.
ghost use Rattle.std.specs.Prelude.{◌≡◌, ◌<◌, true};
ghost use Rattle.git_objects.specs.declared.kind.Kind.TheVariants.{Tree};
ghost use Rattle.object_store.specs.Objects.{has};
ghost use Rattle.filter_text.specs.Shapes.{shape};
ghost use Rattle.workspace.specs.Laws.{IsUsable};

use crate::leaves::{add_leaves, add_tree, tree};
use crate::routes::sound_filter;
use crate::texts::add_filter;
use case_lines::{Fault, Texts, Word, add_path};
use filter_apply::shown;
use filter_cache::Memo;
use filter_routes::{Table, Tables};
use filter_text::Filter;
use git_objects::{Name, Steps};
use object_store::Store;
use path_names::Path;
use std::alloc::{AllocError, Global};
use std::sync::ledger::{Blank, Ledger};
use workspace::{file_place, leaf_where, resolve, resolve_leaf};

/// The number of the table of a sound filter for that tree.
pub fn table_number(
    alloc: Global,
    texts: &Texts,
    store: &Store,
    tables: &mut Tables,
    filter: &Word,
    root: Name,
) -> Result<usize, Fault>
    requires { has Tree store.now root.0 ≡ true }
{
    let filter = sound_filter(alloc, texts, filter)?;
    resolve(alloc, store, &filter, root, tables).map_err(Fault::from)
}

/// Adds the workspace place, whether the leaf there is readable, the filter for the tree of these leaves, and each path
/// of the tree that it shows, with its image.
pub fn add_resolved(
    alloc: Global,
    out: &mut String,
    texts: &Texts,
    store: &mut Store,
    tables: &mut Tables,
    words: &[Word],
) -> Result<(), Fault> {
    let [filter, leaves @ ..] = words else {
        return Err(Fault::BadLine);
    };
    let root = tree(alloc, texts, store, leaves)?;
    let filter = sound_filter(alloc, texts, filter)?;
    let number = add_placed(alloc, out, store, tables, &filter, root)?;
    let table = tables.get(number).ok_or(Fault::BadLine)?;
    add_table(out, table, store, root)
}

// Adds the filter of a table, and the paths that it shows.
fn add_table(out: &mut String, table: &Table, store: &Store, root: Name) -> Result<(), Fault> {
    add_filter(out, table.filter())?;
    out.push('\n')?;
    add_leaves(out, Some(table), store, root)
}

// Adds the workspace place, and what is said of the leaf there. The number of the filter's table for the tree is handed
// out.
fn add_placed(
    alloc: Global,
    out: &mut String,
    store: &Store,
    tables: &mut Tables,
    filter: &Filter,
    root: Name,
) -> Result<usize, Fault>
    requires usable { IsUsable (shape filter.now) }
    requires root { has Tree store.now root.0 ≡ true }
{
    let place = file_place(alloc, filter)?;
    let leaf = leaf_where(store, root, &place);
    add_place(out, &place)?;
    let found = resolve_leaf(alloc, store, filter, leaf, tables)?;
    add_readable(out, found.readable)?;
    Ok(found.table)
}

fn add_place(out: &mut String, place: &Option<Path>) -> Result<(), AllocError> {
    match place {
        None => out.push_str("no place,"),
        Some(path) => add_path(out, path),
    }
}

fn add_readable(out: &mut String, readable: bool) -> Result<(), AllocError> {
    if readable {
        out.push_str(" readable\n")
    } else {
        out.push_str(" unreadable\n")
    }
}

/// Adds the name of the tree that a filter shows of the tree of these leaves, and its leaves.
pub fn add_shown<L: Ledger>(
    alloc: Global,
    out: &mut String,
    texts: &Texts,
    store: &mut Store,
    tables: &mut Tables,
    words: &[Word],
    blank: Blank,
) -> Result<(), Fault>
    requires name { blank.name ≡ L.name }
    requires parts { blank.parts ≡ L.parts }
    requires some { 0 < blank.parts }
{
    let [filter, leaves @ ..] = words else {
        return Err(Fault::BadLine);
    };
    let root = tree(alloc, texts, store, leaves)?;
    let number = table_number(alloc, texts, store, tables, filter, root)?;
    let table = tables.get(number).ok_or(Fault::BadLine)?;
    let mut steps = Steps::<L>::new(blank);
    let name = shown_by(alloc, store, table, number, root, &mut steps)?;
    add_tree(out, store, name)
}

// What is shown with a memo of one pair.
fn shown_by<L: Ledger>(
    alloc: Global,
    store: &mut Store,
    table: &Table,
    number: usize,
    root: Name,
    steps: &mut Steps<L>,
) -> Result<Name, Fault>
    requires { has Tree store.old root.0 ≡ true }
{
    let mut memo = Memo::new(alloc, 1)?;
    let name = shown(alloc, store, table, number, root, &mut memo, steps);
    name.ok().ok_or(Fault::BadLine)
}
