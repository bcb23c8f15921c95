// Trees that are joined, and trees that are laid back into those of which they are shown.
use crate::leaves::{add_both, add_tree, two_trees};
use crate::showing::table_number;
use case_lines::{Fault, Texts, Word, add_digits, add_path, path_of};
use filter_routes::Tables;
use filter_unapply::{LayFault, laid, laid_below, unseen};
use object_store::Store;
use path_names::Path;
use path_trees::{JoinFault, join_disjoint};
use std::alloc::{AllocError, Global};

// Adds why nothing is laid.
fn add_fault(out: &mut String, fault: &LayFault) -> Result<(), Fault> {
    match fault {
        LayFault::NotHeld { path } => {
            out.push_str("not held: ")?;
            add_path(out, path).map_err(Fault::from)
        }
        LayFault::Blocked { path, by } => {
            out.push_str("blocked: ")?;
            add_both(out, path, " by ", by).map_err(Fault::from)
        }
        _ => Err(Fault::BadLine),
    }
}

/// Adds the name of the tree of the leaves before the word `with` and of those behind it; or the first clash of both.
pub fn add_joined(
    alloc: Global,
    out: &mut String,
    texts: &Texts,
    store: &mut Store,
    words: &[Word],
) -> Result<(), Fault> {
    let (first, second) = two_trees(alloc, texts, store, words, "with")?;
    match &join_disjoint(alloc, store, first, second) {
        Ok(name) => add_digits(out, name).map_err(Fault::from),
        Err(JoinFault::Clash { path, by }) => {
            out.push_str("clash: ")?;
            add_both(out, path, " by ", by).map_err(Fault::from)
        }
        Err(_) => Err(Fault::BadLine),
    }
}

/// Adds the name of the tree of the leaves before the word `pushed` where the tree of those behind it is laid below a
/// place.
pub fn add_laid_below(
    alloc: Global,
    out: &mut String,
    texts: &Texts,
    store: &mut Store,
    words: &[Word],
) -> Result<(), Fault> {
    let [place, leaves @ ..] = words else {
        return Err(Fault::BadLine);
    };
    let (base, pushed) = two_trees(alloc, texts, store, leaves, "pushed")?;
    let place = path_of(alloc, texts, place)?;
    match &laid_below(alloc, store, &place, base, pushed) {
        Ok(name) => add_digits(out, name).map_err(Fault::from),
        Err(fault) => add_fault(out, fault),
    }
}

/// Adds what becomes of the tree of the leaves before the word `pushed` when the tree of those behind it is laid into
/// it through a filter.
pub fn add_laid(
    alloc: Global,
    out: &mut String,
    texts: &Texts,
    store: &mut Store,
    tables: &mut Tables,
    words: &[Word],
) -> Result<(), Fault> {
    let [filter, leaves @ ..] = words else {
        return Err(Fault::BadLine);
    };
    let (base, pushed) = two_trees(alloc, texts, store, leaves, "pushed")?;
    let number = table_number(alloc, texts, store, tables, filter, base)?;
    let table = tables.get(number).ok_or(Fault::BadLine)?;
    match &laid(alloc, store, table, base, pushed) {
        Ok(name) => add_tree(out, store, *name),
        Err(fault) => add_fault(out, fault),
    }
}

/// Adds the first path of the tree of the leaves before the word `pushed` that the second filter shows, the first
/// doesn't, and the tree of the leaves behind it hasn't as it stands.
pub fn add_unseen(
    alloc: Global,
    out: &mut String,
    texts: &Texts,
    store: &mut Store,
    tables: &mut Tables,
    words: &[Word],
) -> Result<(), Fault> {
    let [old, new, leaves @ ..] = words else {
        return Err(Fault::BadLine);
    };
    let (base, pushed) = two_trees(alloc, texts, store, leaves, "pushed")?;
    let old = table_number(alloc, texts, store, tables, old, base)?;
    let new = table_number(alloc, texts, store, tables, new, base)?;
    let (Some(old), Some(new)) = (tables.get(old), tables.get(new)) else {
        return Err(Fault::BadLine);
    };
    let path = unseen(alloc, store, old, new, base, pushed)?;
    add_first(out, &path).map_err(Fault::from)
}

fn add_first(out: &mut String, path: &Option<Path>) -> Result<(), AllocError> {
    match path {
        None => out.push_str("all is seen"),
        Some(path) => {
            out.push_str("unseen: ")?;
            add_path(out, path)
        }
    }
}
