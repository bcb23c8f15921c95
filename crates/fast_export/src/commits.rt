// Commits, each with its whole tree.
ghost use Rattle.std.specs.Prelude.{◌≡◌, ◌++◌, ◌∷◌, [], Bool, true, None, map, OnOk};
ghost use Rattle.std.specs.Prelude.{if◌then◌else◌};
ghost use Rattle.std.specs.Map.{lookup};
ghost use Rattle.std.specs.Option.{unwrap_or};
ghost use Rattle.git_objects.specs.declared.kind.Kind.TheVariants.{Commit as CommitKind, Tree};
ghost use Rattle.object_store.specs.Objects.{IsStore, has};
ghost use Rattle.object_store.specs.StoredSnapshots.{snapshot_of};
ghost use Rattle.object_store.specs.Unfolding.{flat};
ghost use Rattle.fast_export.specs.ExportTexts.{commit_text, commits_text, mark_line, marks_behind};
ghost use Rattle.fast_export.specs.Given.{HasMarks, commit_mark, commit_names, front_text, head_text};
ghost use Rattle.fast_export.specs.Given.{is_named, marks_in, parent_word, parents_from};
ghost use Rattle.fast_export.specs.Histories.{snapshots_at};
ghost use Rattle.fast_export.specs.Known.{AreKnown, AreWritten};
ghost use Rattle.fast_export.specs.MarkedStores.{IsMarked, blobs_of, marks_of};
ghost use Rattle.fast_export.specs.Sending.{IsPut};

use crate::ExportError;
use crate::blobs::write_new_blobs;
use crate::given::GivenMarks;
use crate::kept::Kept;
use crate::leaves::write_lines;
use crate::lines::{add_data_line, add_line, add_mark_line};
use crate::marked_store::MarkedStore;
use crate::sending::put;
use git_objects::{CommitView, Name};
use object_store::Store;
use path_names::RefName;
use proj_io::Sink;
use std::alloc::AllocError;

// How many levels of directories are gone down one by one.
const DEPTH: u32 = 64;

/// The lines of a commit in front of its message; before one without parents the ref is unset.
pub fn add_head(
    out: &mut Vec<u8>,
    refname: &RefName,
    number: u64,
    commit: &CommitView<'_>,
) -> Result<(), AllocError>
    ensures { OnOk result (out.new.items ≡ out.old.items ++ head_text refname.now number commit.now) }
{
    if commit.parent_count() == 0 {
        add_line(out, b"reset ", refname.text())?;
    }
    add_line(out, b"commit ", refname.text())?;
    add_mark_line(out, b"mark ", number)?;
    add_line(out, b"author ", commit.author())?;
    add_line(out, b"committer ", commit.committer())?;
    add_data_line(out, commit.message().len())
}

// The line of a parent.
fn add_parent(
    out: &mut Vec<u8>,
    marks: &GivenMarks,
    i: usize,
    parent: &Name,
) -> Result<(), AllocError>
    ensures { OnOk result (out.new.items ≡ out.old.items
        ++ mark_line (parent_word i) (unwrap_or (lookup (is_named parent.now) marks.now.commits) 0)) }
{
    let word: &[u8] = if i == 0 { b"from " } else { b"merge " };
    add_mark_line(out, word, marks.commit(parent).unwrap_or(0))
}

// The lines of a commit's parents.
fn add_parents(
    out: &mut Vec<u8>,
    marks: &GivenMarks,
    commit: &CommitView<'_>,
) -> Result<(), AllocError>
    ensures { OnOk result (out.new.items ≡ out.old.items
        ++ parents_from (map commit_mark marks.now.commits) 0 commit.now.parents) }
{
    for i in 0..commit.parent_count() {
        let Some(parent) = commit.parent(i) else {
            unreachable!();
        };
        add_parent(out, marks, i, &parent)?;
    }
    Ok(())
}

// A commit's lines in front of those of its leaves.
fn write_front<O: Sink>(
    marks: &GivenMarks,
    refname: &RefName,
    number: u64,
    commit: &CommitView<'_>,
    sink: &mut O,
    kept: &mut Vec<u8>,
) -> Result<(), ExportError>
    ensures { IsPut O.tells O.written O.faults O.refusals sink.old sink.new kept.old.items kept.new.items
        (front_text refname.now number (map commit_mark marks.now.commits) commit.now) result }
{
    add_head(kept, refname, number, commit)?;
    put(sink, kept, commit.message())?;
    kept.push(b'\n')?;
    add_parents(kept, marks, commit)?;
    kept.extend_from_slice(b"deleteall\n")?;
    Ok(())
}

// A commit, of which the blobs were written and the mark is given.
fn write_made<O: Sink>(
    marked: &MarkedStore<'_>,
    refname: &RefName,
    number: u64,
    commit: &CommitView<'_>,
    sink: &mut O,
    kept: &mut Kept,
) -> Result<(), ExportError>
    requires marked { IsMarked marked.now }
    requires tree { has Tree marked.now.store.now commit.now.tree ≡ true }
    requires marks { HasMarks (blobs_of marked.now) (flat marked.now.store.now commit.now.tree) }
    requires known { AreKnown marked.now.store.now (blobs_of marked.now) kept.old.lines }
    ensures put { IsPut O.tells O.written O.faults O.refusals sink.old sink.new
        kept.old.text.items kept.new.text.items
        (commit_text refname.now number (marks_of marked.now) (snapshot_of marked.now.store.now commit.now)) result }
    ensures known { OnOk result (AreKnown marked.now.store.now (blobs_of marked.now) kept.new.lines) }
{
    write_front(marked.marks, refname, number, commit, sink, &mut kept.text)?;
    write_lines(marked, commit.tree(), b"", DEPTH, sink, kept)?;
    kept.text.push(b'\n')?;
    Ok(())
}

/// Writes a commit behind the new blobs of its tree.
pub fn write_commit<O: Sink>(
    store: &Store,
    refname: &RefName,
    name: &Name,
    marks: &mut GivenMarks,
    sink: &mut O,
    kept: &mut Kept,
) -> Result<(), ExportError>
    requires commit { has CommitKind store.now name.now.0 ≡ true }
    requires new { lookup (is_named name.now) marks.old.commits ≡ None }
    requires given { AreWritten store.now marks.old kept.old.lines }
    ensures put { IsPut O.tells O.written O.faults O.refusals sink.old sink.new
        kept.old.text.items kept.new.text.items
        (commits_text refname.now (marks_in store.now marks.old) (snapshots_at store.now (name.now.0 ∷ []))) result }
    ensures marks { OnOk result (marks_in store.now marks.new
        ≡ marks_behind (marks_in store.now marks.old) (snapshots_at store.now (name.now.0 ∷ []))) }
    ensures given { OnOk result (AreWritten store.now marks.new kept.new.lines) }
    ensures names { OnOk result (commit_names marks.new ≡ commit_names marks.old ++ name.now ∷ []) }
    ensures store { IsStore store.now }
{
    let Some(object) = store.get(name) else {
        unreachable!();
    };
    let Some(commit) = CommitView::of(object.body) else {
        unreachable!();
    };
    write_new_blobs(store, commit.tree(), DEPTH, marks, sink, &mut kept.text)?;
    let number = marks.next();
    marks.add_commit(*name)?;
    let marked = MarkedStore { store, marks };
    write_made(&marked, refname, number, &commit, sink, kept)
}
