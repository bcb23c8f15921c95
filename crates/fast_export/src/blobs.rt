// The blobs of a tree that have no mark.
ghost use Rattle.std.specs.Prelude.{◌≡◌, ◌++◌, true, codes, decimal, flat_map, OnOk};
ghost use Rattle.git_objects.specs.declared.kind.Kind.TheVariants.{Tree};
ghost use Rattle.object_store.specs.Objects.{IsStore, has, has_child};
ghost use Rattle.object_store.specs.Unfolding.{flat};
ghost use Rattle.fast_export.specs.ExportTexts.{blob_text, line, mark_line, new_blobs};
ghost use Rattle.fast_export.specs.Given.{AreGivenIn, marks_in, one_leaf, with_blobs};
ghost use Rattle.fast_export.specs.Sending.{IsPut};

use crate::ExportError;
use crate::entries::entries_of;
use crate::given::GivenMarks;
use crate::lines::{add_data_line, add_mark_line, is_module};
use crate::sending::put;
use git_objects::Name;
use object_store::Store;
use path_trees::{Leaf, Walk};
use proj_io::Sink;
use std::alloc::AllocError;

// What stands in front of a blob's bytes.
fn add_blob_head(out: &mut Vec<u8>, number: u64, size: usize) -> Result<(), AllocError>
    ensures { OnOk result (out.new.items ≡ out.old.items ++ (codes "blob\n" ++ mark_line (codes "mark ") number
        ++ line (codes "data ") (decimal size))) }
{
    out.extend_from_slice(b"blob\n")?;
    add_mark_line(out, b"mark ", number)?;
    add_data_line(out, size)
}

// Writes a blob with its mark.
fn write_blob<O: Sink>(
    sink: &mut O,
    kept: &mut Vec<u8>,
    number: u64,
    body: &[u8],
) -> Result<(), ExportError>
    ensures { IsPut O.tells O.written O.faults O.refusals sink.old sink.new
        kept.old.items kept.new.items (blob_text (number, body.now)) result }
{
    add_blob_head(kept, number, body.len())?;
    put(sink, kept, body)?;
    kept.push(b'\n')?;
    Ok(())
}

/// Writes a leaf's blob, if it has one without a mark, and gives it the next.
pub fn write_new_blob<O: Sink>(
    store: &Store,
    leaf: Leaf,
    marks: &mut GivenMarks,
    sink: &mut O,
    kept: &mut Vec<u8>,
) -> Result<(), ExportError>
    requires leaf { has_child store.now leaf.mode leaf.name.0 ≡ true }
    requires marks { AreGivenIn store.now marks.old }
    ensures put { IsPut O.tells O.written O.faults O.refusals sink.old sink.new
        kept.old.items kept.new.items
        (flat_map blob_text (new_blobs (marks_in store.now marks.old) (one_leaf store.now leaf))) result }
    ensures marks { OnOk result (marks_in store.now marks.new
        ≡ with_blobs (marks_in store.now marks.old) (one_leaf store.now leaf)) }
    ensures given { OnOk result (AreGivenIn store.now marks.new) }
    ensures commits { OnOk result (marks.new.commits ≡ marks.old.commits) }
{
    if is_module(leaf.mode) {
        return Ok(());
    }
    if marks.blob(&leaf.name).is_some() {
        return Ok(());
    }
    match store.get(&leaf.name) {
        None => unreachable!(),
        Some(object) => {
            write_blob(sink, kept, marks.next(), object.body)?;
            marks.add_blob(leaf.name)?;
            Ok(())
        }
    }
}

// Writes the blobs of a tree that have no mark, leaf by leaf.
fn write_each_new_blob<O: Sink>(
    store: &Store,
    tree: Name,
    marks: &mut GivenMarks,
    sink: &mut O,
    kept: &mut Vec<u8>,
) -> Result<(), ExportError>
    requires store { IsStore store.now }
    requires tree { has Tree store.now tree.0 ≡ true }
    requires marks { AreGivenIn store.now marks.old }
    ensures put { IsPut O.tells O.written O.faults O.refusals sink.old sink.new
        kept.old.items kept.new.items
        (flat_map blob_text (new_blobs (marks_in store.now marks.old) (flat store.now tree.0))) result }
    ensures marks { OnOk result (marks_in store.now marks.new
        ≡ with_blobs (marks_in store.now marks.old) (flat store.now tree.0)) }
    ensures given { OnOk result (AreGivenIn store.now marks.new) }
    ensures commits { OnOk result (marks.new.commits ≡ marks.old.commits) }
{
    let mut walk = Walk::new(marks.alloc(), store, tree)?;
    'leaves: while walk.next()? {
        write_new_blob(store, walk.leaf(), marks, sink, kept)?;
    }
    Ok(())
}

/// Writes the blobs of a tree that have no mark, in path order, and gives them the next marks. A directory of which
/// each blob is known to have one isn't read. In directories that are more than `depth` levels down every leaf is
/// looked at.
pub fn write_new_blobs<O: Sink>(
    store: &Store,
    tree: Name,
    depth: u32,
    marks: &mut GivenMarks,
    sink: &mut O,
    kept: &mut Vec<u8>,
) -> Result<(), ExportError>
    requires store { IsStore store.now }
    requires tree { has Tree store.now tree.0 ≡ true }
    requires marks { AreGivenIn store.now marks.old }
    ensures put { IsPut O.tells O.written O.faults O.refusals sink.old sink.new
        kept.old.items kept.new.items
        (flat_map blob_text (new_blobs (marks_in store.now marks.old) (flat store.now tree.0))) result }
    ensures marks { OnOk result (marks_in store.now marks.new
        ≡ with_blobs (marks_in store.now marks.old) (flat store.now tree.0)) }
    ensures given { OnOk result (AreGivenIn store.now marks.new) }
    ensures commits { OnOk result (marks.new.commits ≡ marks.old.commits) }
{
    if marks.has_tree(&tree) {
        return Ok(());
    }
    if depth == 0 {
        return write_each_new_blob(store, tree, marks, sink, kept);
    }
    let mut left = entries_of(store, &tree);
    'entries: while let Some(entry) = left.next() {
        if entry.mode.is_dir() {
            write_new_blobs(store, entry.name, depth - 1, marks, sink, kept)?;
        } else {
            let leaf = Leaf {
                mode: entry.mode,
                name: entry.name,
            };
            write_new_blob(store, leaf, marks, sink, kept)?;
        }
    }
    marks.add_tree(tree)?;
    Ok(())
}
