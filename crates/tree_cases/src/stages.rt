// A tree that is made, stored, and edited on a stage of its own.
ghost use Rattle.std.specs.Prelude.{◌≡◌, true, IfSome};
ghost use Rattle.git_objects.specs.Trees.{Flat};
ghost use Rattle.git_objects.specs.declared.kind.Kind.TheVariants.{Blob, Tree};
ghost use Rattle.object_store.specs.Objects.{has};
ghost use Rattle.stage_tree.specs.Stages.{Shows};

use crate::edits::edit;
use crate::leaves::parted;
use crate::words::edit_of;
use case_lines::{Fault, Word, add_digits, put_object};
use git_objects::{Kind, Name};
use object_store::{Store, store_law};
use path_names::Path;
use stage_tree::{Stage, StageFault};
use std::alloc::{AllocError, Global};

// Adds the line of an edit: how many nodes the stage then has, or why it wasn't edited.
fn add_line(
    out: &mut String,
    word: &str,
    answer: Result<(), StageFault>,
    nodes: usize,
) -> Result<(), AllocError> {
    match answer {
        Ok(()) => writeln!(out, "{word} nodes {nodes}"),
        Err(fault) => writeln!(out, "{word} {fault:?}, nodes {nodes}"),
    }
}

fn path(alloc: Global, text: &str) -> Result<Path, Fault> {
    let path = Path::parse(alloc, text.as_bytes());
    path.ok().ok_or(Fault::BadLine)
}

// Edits a stage by a word, and adds the line for it.
fn edited_by(
    alloc: Global,
    out: &mut String,
    stage: &mut Stage,
    store: &Store,
    blob: Name,
    stored: Option<Name>,
    word: &str,
) -> Result<(), Fault>
    requires blob { has Blob store.now blob.0 ≡ true }
    requires stored { IfSome stored (λ n. has Tree store.now n.0 ≡ true) }
    requires shows { (t : Flat) × Shows store.now stage.old t }
    ensures { (t : Flat) × Shows store.now stage.new t }
{
    let (deed, from, to) = edit_of(word).ok_or(Fault::BadLine)?;
    let from = path(alloc, from)?;
    let to = path(alloc, to)?;
    let answer = edit(stage, store, blob, stored, &deed, &from, &to);
    add_line(out, word, answer, stage.nodes()).map_err(Fault::from)
}

// Edits a stage by each word, and adds a line for each.
fn edited(
    alloc: Global,
    out: &mut String,
    stage: &mut Stage,
    store: &Store,
    blob: Name,
    stored: Option<Name>,
    words: &[Word],
) -> Result<(), Fault>
    requires blob { has Blob store.now blob.0 ≡ true }
    requires stored { IfSome stored (λ n. has Tree store.now n.0 ≡ true) }
    requires shows { (t : Flat) × Shows store.now stage.old t }
    ensures { (t : Flat) × Shows store.now stage.new t }
{
    for word in words {
        edited_by(alloc, out, stage, store, blob, stored, word.text())?;
    }
    Ok(())
}

// Stores the tree of the edits from nothing.
fn base(alloc: Global, store: &mut Store, blob: Name, words: &[Word]) -> Result<Name, Fault>
    requires { has Blob store.old blob.0 ≡ true }
{
    store_law(store);
    let mut stage = Stage::empty(alloc)?;
    let mut lines = String::new(alloc);
    edited(alloc, &mut lines, &mut stage, store, blob, None, words)?;
    stage.finish(store).ok().ok_or(Fault::BadLine)
}

// Edits the stored tree, a line for each edit. The name of the tree then is handed out.
fn upon(
    alloc: Global,
    out: &mut String,
    store: &mut Store,
    blob: Name,
    root: Name,
    words: &[Word],
) -> Result<Name, Fault> {
    if !store.has(Kind::Tree, &root) || !store.has(Kind::Blob, &blob) {
        return Err(Fault::BadLine);
    }
    let mut stage = Stage::begin(alloc, store, root)?;
    edited(alloc, out, &mut stage, store, blob, Some(root), words)?;
    stage.finish(store).ok().ok_or(Fault::BadLine)
}

/// `EDIT .. begin EDIT ..`: the tree of the first edits is stored, and a stage of it edited by the others.
pub fn add_staged(
    alloc: Global,
    out: &mut String,
    store: &mut Store,
    words: &[Word],
) -> Result<(), Fault> {
    let (front, behind) = parted(words, "begin").ok_or(Fault::BadLine)?;
    let blob = put_object(store, Kind::Blob, b"x")?;
    if !store.has(Kind::Blob, &blob) {
        return Err(Fault::BadLine);
    }
    let root = base(alloc, store, blob, front)?;
    let name = upon(alloc, out, store, blob, root, behind)?;
    out.push_str("tree ")?;
    add_digits(out, &name).map_err(Fault::from)
}
