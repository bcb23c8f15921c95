// The lines that put the leaves of a tree. Those of a directory that stays are written again as they were.
ghost use Rattle.std.specs.Prelude.{◌≡◌, ◌++◌, ◌∷◌, [], true, Ok, IfOk};
ghost use Rattle.git_objects.specs.Views.{entry_value};
ghost use Rattle.git_objects.specs.declared.kind.Kind.TheVariants.{Tree};
ghost use Rattle.object_store.specs.Objects.{has, has_child};
ghost use Rattle.object_store.specs.Unfolding.{entry_flat, flat};
ghost use Rattle.fast_export.specs.Given.{HasMarks, leaf_text};
ghost use Rattle.fast_export.specs.Known.{AreKnown, lines_behind};
ghost use Rattle.fast_export.specs.MarkedStores.{IsMarked, blobs_of};
ghost use Rattle.fast_export.specs.Sending.{IsPut, unit_of};

use crate::ExportError;
use crate::entries::entries_of;
use crate::given::GivenMarks;
use crate::kept::Kept;
use crate::lines::add_leaf_line;
use crate::marked_store::MarkedStore;
use crate::sending::{put_piece, send_piece};
use git_objects::{EntryView, Name};
use path_trees::{Leaf, Walk};
use proj_io::Sink;
use std::alloc::{AllocError, Global};

/// A text behind another, with room for a byte more.
pub fn behind(alloc: Global, front: &[u8], text: &[u8]) -> Result<Vec<u8>, AllocError>
    ensures { IfOk result (λ t. t.items ≡ front.now ++ text.now) }
{
    let size = front.len().saturating_add(text.len()).saturating_add(1);
    let mut both = Vec::with_capacity(alloc, size)?;
    both.extend_from_slice(front)?;
    both.extend_from_slice(text)?;
    Ok(both)
}

/// What stands in front of the paths below a directory.
pub fn below(alloc: Global, front: &[u8], component: &[u8]) -> Result<Vec<u8>, AllocError>
    ensures { IfOk result (λ t. t.items ≡ (front.now ++ component.now) ++ 47 ∷ []) }
{
    let mut both = behind(alloc, front, component)?;
    both.push(b'/')?;
    Ok(both)
}

// The line of a leaf at a path behind a front; true where nothing was sent.
fn write_leaf<O: Sink>(
    marks: &GivenMarks,
    front: &[u8],
    path: &[u8],
    leaf: Leaf,
    sink: &mut O,
    kept: &mut Vec<u8>,
) -> Result<bool, ExportError>
    ensures put { IsPut O.tells O.written O.faults O.refusals sink.old sink.new
        kept.old.items kept.new.items
        (leaf_text marks.now leaf (front.now ++ path.now)) (unit_of result) }
    ensures whole { result ≡ Ok true → kept.new.items ≡ kept.old.items
        ++ leaf_text marks.now leaf (front.now ++ path.now) }
{
    let alloc = marks.alloc();
    let text = behind(alloc, front, path)?;
    add_leaf_line(alloc, kept, marks, &text, leaf)?;
    send_piece(sink, kept)
}

// The lines of a tree's leaves behind a front, leaf by leaf.
fn write_each_leaf<O: Sink>(
    marked: &MarkedStore<'_>,
    tree: Name,
    front: &[u8],
    sink: &mut O,
    kept: &mut Vec<u8>,
) -> Result<(), ExportError>
    requires marked { IsMarked marked.now }
    requires tree { has Tree marked.now.store.now tree.0 ≡ true }
    ensures { IsPut O.tells O.written O.faults O.refusals sink.old sink.new
        kept.old.items kept.new.items
        (lines_behind (blobs_of marked.now) front.now (flat marked.now.store.now tree.0)) result }
{
    let alloc = marked.marks.alloc();
    let mut walk = Walk::new(alloc, marked.store, tree)?;
    'leaves: while walk.next()? {
        let path = walk.path().text(alloc)?;
        write_leaf(marked.marks, front, &path, walk.leaf(), sink, kept)?;
    }
    Ok(())
}

/// The lines of a tree's leaves behind a front; true where nothing was sent, so that all of them are kept. The lines of
/// a directory that are known are written as they are. In directories that are more than `depth` levels down every
/// leaf is looked at.
#[cycle(lines)]
pub fn write_lines<O: Sink>(
    marked: &MarkedStore<'_>,
    tree: Name,
    front: &[u8],
    depth: u32,
    sink: &mut O,
    kept: &mut Kept,
) -> Result<bool, ExportError>
    requires marked { IsMarked marked.now }
    requires tree { has Tree marked.now.store.now tree.0 ≡ true }
    requires marks { HasMarks (blobs_of marked.now) (flat marked.now.store.now tree.0) }
    requires known { AreKnown marked.now.store.now (blobs_of marked.now) kept.old.lines }
    ensures put { IsPut O.tells O.written O.faults O.refusals sink.old sink.new
        kept.old.text.items kept.new.text.items
        (lines_behind (blobs_of marked.now) front.now (flat marked.now.store.now tree.0)) (unit_of result) }
    ensures whole { result ≡ Ok true → kept.new.text.items ≡ kept.old.text.items
        ++ lines_behind (blobs_of marked.now) front.now (flat marked.now.store.now tree.0) }
    ensures known { AreKnown marked.now.store.now (blobs_of marked.now) kept.new.lines }
{
    if depth == 0 {
        write_each_leaf(marked, tree, front, sink, &mut kept.text)?;
        return Ok(false);
    }
    let mut left = entries_of(marked.store, &tree);
    let mut whole = true;
    'entries: while let Some(entry) = left.next() {
        let stays = write_entry(marked, &entry, front, depth - 1, sink, kept)?;
        whole = whole && stays;
    }
    Ok(whole)
}

// The lines of an entry's leaves.
#[cycle(lines)]
fn write_entry<O: Sink>(
    marked: &MarkedStore<'_>,
    entry: &EntryView<'_>,
    front: &[u8],
    depth: u32,
    sink: &mut O,
    kept: &mut Kept,
) -> Result<bool, ExportError>
    requires marked { IsMarked marked.now }
    requires entry { has_child marked.now.store.now entry.now.mode entry.now.name.0 ≡ true }
    requires marks { HasMarks (blobs_of marked.now)
        (entry_flat marked.now.store.now (entry_value entry.now)) }
    requires known { AreKnown marked.now.store.now (blobs_of marked.now) kept.old.lines }
    ensures put { IsPut O.tells O.written O.faults O.refusals sink.old sink.new
        kept.old.text.items kept.new.text.items
        (lines_behind (blobs_of marked.now) front.now (entry_flat marked.now.store.now (entry_value entry.now)))
        (unit_of result) }
    ensures whole { result ≡ Ok true → kept.new.text.items ≡ kept.old.text.items
        ++ lines_behind (blobs_of marked.now) front.now
        (entry_flat marked.now.store.now (entry_value entry.now)) }
    ensures known { AreKnown marked.now.store.now (blobs_of marked.now) kept.new.lines }
{
    if entry.mode.is_dir() {
        let inner = below(marked.marks.alloc(), front, entry.component)?;
        return write_directory(marked, entry.name, &inner, depth, sink, kept);
    }
    let leaf = Leaf {
        mode: entry.mode,
        name: entry.name,
    };
    write_leaf(
        marked.marks,
        front,
        entry.component,
        leaf,
        sink,
        &mut kept.text,
    )
}

// The lines of a directory, as they are known, or as they are from now on.
#[cycle(lines)]
fn write_directory<O: Sink>(
    marked: &MarkedStore<'_>,
    tree: Name,
    front: &[u8],
    depth: u32,
    sink: &mut O,
    kept: &mut Kept,
) -> Result<bool, ExportError>
    requires marked { IsMarked marked.now }
    requires tree { has Tree marked.now.store.now tree.0 ≡ true }
    requires marks { HasMarks (blobs_of marked.now) (flat marked.now.store.now tree.0) }
    requires known { AreKnown marked.now.store.now (blobs_of marked.now) kept.old.lines }
    ensures put { IsPut O.tells O.written O.faults O.refusals sink.old sink.new
        kept.old.text.items kept.new.text.items
        (lines_behind (blobs_of marked.now) front.now (flat marked.now.store.now tree.0)) (unit_of result) }
    ensures whole { result ≡ Ok true → kept.new.text.items ≡ kept.old.text.items
        ++ lines_behind (blobs_of marked.now) front.now (flat marked.now.store.now tree.0) }
    ensures known { AreKnown marked.now.store.now (blobs_of marked.now) kept.new.lines }
{
    if let Some(text) = kept.lines.find(&tree, front) {
        return put_piece(sink, &mut kept.text, text);
    }
    let start = kept.text.len();
    let whole = write_lines(marked, tree, front, depth, sink, kept)?;
    if whole {
        kept.lines.add(tree, front, &kept.text[start..]);
    }
    Ok(whole)
}
