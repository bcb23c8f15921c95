// Commits, each with what it changes.
ghost use Rattle.std.specs.Prelude.{◌≡◌, ◌++◌, ◌∷◌, [], None, codes, flat_map, map, true, OnOk};
ghost use Rattle.std.specs.Map.{lookup};
ghost use Rattle.git_objects.specs.Lists.{Each};
ghost use Rattle.git_objects.specs.declared.kind.Kind.TheVariants.{Commit as CommitKind};
ghost use Rattle.object_store.specs.Objects.{IsStore, has};
ghost use Rattle.object_store.specs.StoredSnapshots.{snapshot_of};
ghost use Rattle.path_names.specs.Quoting.{quote};
ghost use Rattle.fast_export.specs.ExportTexts.{blob_text, line, new_blobs};
ghost use Rattle.fast_export.specs.Given.{AreGivenIn, AreHeldBlobs, commit_mark, commit_names, is_named, leaf_text};
ghost use Rattle.fast_export.specs.Given.{marks_in, with_blobs};
ghost use Rattle.fast_export.specs.Histories.{snapshots_at};
ghost use Rattle.fast_export.specs.Sending.{IsPut};
ghost use Rattle.incremental_export.specs.ChangeTexts.{commit_text, commits_text, marks_behind, tree_upon};
ghost use Rattle.incremental_export.specs.Compared.{IsHeldLeaf, IsHeldTree, tree_at};
ghost use Rattle.incremental_export.specs.Histories.{tree_in};
ghost use Rattle.incremental_export.specs.Written.{AreChangesOf, HasParentsIn, flat_of, front_text};

use crate::compare::{Changes, Placed, tree_changes};
use crate::lines::{add_delete_line, add_parents};
use fast_export::{
    ExportError, GivenMarks, add_head, add_leaf_line, put, send_piece, write_new_blob,
};
use git_objects::{CommitView, Name};
use object_store::{Store, tree_of};
use path_names::RefName;
use proj_io::Sink;

// The tree of a commit's first parent, where it has one.
fn tree_upon(store: &Store, commit: &CommitView<'_>) -> Option<Name>
    requires { HasParentsIn store.now commit.now.parents }
    ensures tree { tree_at store.now result ≡ tree_upon (tree_in store.now) commit.now.parents }
    ensures held { IsHeldTree store.now result }
{
    match commit.parent(0) {
        None => None,
        Some(parent) => Some(tree_of(store, &parent)),
    }
}

// Writes the blobs of leaves that have no mark, and gives them the next ones.
fn write_blobs<O: Sink>(
    store: &Store,
    leaves: &[Placed],
    marks: &mut GivenMarks,
    sink: &mut O,
    kept: &mut Vec<u8>,
) -> Result<(), ExportError>
    requires leaves { Each (IsHeldLeaf store.now) leaves.now }
    requires marks { AreGivenIn store.now marks.old }
    ensures put { IsPut O.tells O.written O.faults O.refusals sink.old sink.new kept.old.items kept.new.items
        (flat_map blob_text (new_blobs (marks_in store.now marks.old) (flat_of store.now leaves.now))) result }
    ensures marks { OnOk result (marks_in store.now marks.new
        ≡ with_blobs (marks_in store.now marks.old) (flat_of store.now leaves.now)) }
    ensures given { OnOk result (AreGivenIn store.now marks.new) }
    ensures commits { OnOk result (marks.new.commits ≡ marks.old.commits) }
{
    for placed in leaves {
        write_new_blob(store, placed.leaf, marks, sink, kept)?;
    }
    Ok(())
}

// The lines by which paths are deleted.
fn write_deleted<O: Sink>(
    marks: &GivenMarks,
    paths: &[Vec<u8>],
    sink: &mut O,
    kept: &mut Vec<u8>,
) -> Result<(), ExportError>
    ensures { IsPut O.tells O.written O.faults O.refusals sink.old sink.new kept.old.items kept.new.items
        (flat_map (λ t. line (codes "D ") (quote t.items)) paths.now) result }
{
    for path in paths {
        add_delete_line(marks.alloc(), kept, path)?;
        send_piece(sink, kept)?;
    }
    Ok(())
}

// The lines that put leaves.
fn write_put<O: Sink>(
    marks: &GivenMarks,
    leaves: &[Placed],
    sink: &mut O,
    kept: &mut Vec<u8>,
) -> Result<(), ExportError>
    ensures { IsPut O.tells O.written O.faults O.refusals sink.old sink.new kept.old.items kept.new.items
        (flat_map (λ p. leaf_text marks.now p.leaf p.path.items) leaves.now) result }
{
    for placed in leaves {
        add_leaf_line(marks.alloc(), kept, marks, &placed.path, placed.leaf)?;
        send_piece(sink, kept)?;
    }
    Ok(())
}

// A commit's lines in front of those of what it changes.
fn write_front<O: Sink>(
    marks: &GivenMarks,
    refname: &RefName,
    number: u64,
    commit: &CommitView<'_>,
    sink: &mut O,
    kept: &mut Vec<u8>,
) -> Result<(), ExportError>
    ensures { IsPut O.tells O.written O.faults O.refusals sink.old sink.new kept.old.items kept.new.items
        (front_text refname.now number (map commit_mark marks.now.commits) commit.now) result }
{
    add_head(kept, refname, number, commit)?;
    put(sink, kept, commit.message())?;
    kept.push(b'\n')?;
    add_parents(kept, marks, commit)?;
    Ok(())
}

// A commit, of which the blobs were written.
fn write_made<O: Sink>(
    store: &Store,
    marks: &GivenMarks,
    refname: &RefName,
    commit: &CommitView<'_>,
    changes: &Changes,
    sink: &mut O,
    kept: &mut Vec<u8>,
) -> Result<(), ExportError>
    requires changes { AreChangesOf store.now commit.now changes.now }
    requires marks { AreHeldBlobs store.now marks.now }
    ensures { IsPut O.tells O.written O.faults O.refusals sink.old sink.new kept.old.items kept.new.items
        (commit_text (tree_in store.now) refname.now (marks_in store.now marks.now) (snapshot_of store.now commit.now))
        result }
{
    write_front(marks, refname, marks.next(), commit, sink, kept)?;
    write_deleted(marks, &changes.deleted, sink, kept)?;
    write_put(marks, &changes.put, sink, kept)?;
    kept.push(b'\n')?;
    Ok(())
}

/// Writes a commit behind the new blobs of what it changes, and gives it the next mark.
pub fn write_commit<O: Sink>(
    store: &Store,
    refname: &RefName,
    name: &Name,
    marks: &mut GivenMarks,
    sink: &mut O,
    kept: &mut Vec<u8>,
) -> Result<(), ExportError>
    requires commit { has CommitKind store.now name.now.0 ≡ true }
    requires new { lookup (is_named name.now) marks.old.commits ≡ None }
    requires given { AreGivenIn store.now marks.old }
    ensures put { IsPut O.tells O.written O.faults O.refusals sink.old sink.new kept.old.items kept.new.items
        (commits_text (tree_in store.now) refname.now (marks_in store.now marks.old)
        (snapshots_at store.now (name.now.0 ∷ []))) result }
    ensures marks { OnOk result (marks_in store.now marks.new
        ≡ marks_behind (tree_in store.now) (marks_in store.now marks.old)
        (snapshots_at store.now (name.now.0 ∷ []))) }
    ensures given { OnOk result (AreGivenIn store.now marks.new) }
    ensures names { OnOk result (commit_names marks.new ≡ commit_names marks.old ++ name.now ∷ []) }
    ensures store { IsStore store.now }
{
    let Some(object) = store.get(name) else {
        unreachable!();
    };
    let Some(commit) = CommitView::of(object.body) else {
        unreachable!();
    };
    let changes = tree_changes(
        marks.alloc(),
        store,
        tree_upon(store, &commit).as_ref(),
        &commit.tree(),
    )?;
    write_blobs(store, &changes.put, marks, sink, kept)?;
    write_made(store, marks, refname, &commit, &changes, sink, kept)?;
    marks.add_commit(*name)?;
    Ok(())
}
