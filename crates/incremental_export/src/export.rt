// New commits, written to a sink.
ghost use Rattle.std.specs.Prelude.{◌≡◌, ◌<◌, ◌≤◌, ◌↔◌, ℕ, [], length, map, take, IsErrOf};
ghost use Rattle.std.specs.Prelude.{OnErr, OnOk};
ghost use Rattle.std.specs.Io.KnownBytes.{Appends};
ghost use Rattle.git_objects.specs.Parts.{name_bytes};
ghost use Rattle.object_store.specs.Objects.{IsStore};
ghost use Rattle.proj_io.specs.Counts.{Counts};
ghost use Rattle.fast_export.specs.ExportTexts.{no_marks};
ghost use Rattle.fast_export.specs.Given.{marks_in, no_given};
ghost use Rattle.fast_export.specs.Histories.{snapshots_at};
ghost use Rattle.fast_export.specs.Sending.{IsPut};
ghost use Rattle.incremental_export.specs.ChangeTexts.{changes_text, commits_text, marks_behind};
ghost use Rattle.incremental_export.specs.Histories.{AreCommitsIn, tree_in};

use crate::commits::write_commit;
use fast_export::{ExportError, GivenMarks, PIECE, add_last, send};
use git_objects::Name;
use object_store::Store;
use path_names::RefName;
use proj_io::Sink;
use std::alloc::Global;

// Writes commits behind one another.
fn write_commits<O: Sink>(
    store: &Store,
    commits: &[Name],
    refname: &RefName,
    marks: &mut GivenMarks,
    sink: &mut O,
    kept: &mut Vec<u8>,
) -> Result<(), ExportError>
    requires commits { AreCommitsIn store.now (map name_bytes commits.now) }
    requires marks { marks.old ≡ no_given }
    ensures put { IsPut O.tells O.written O.faults O.refusals sink.old sink.new kept.old.items kept.new.items
        (commits_text (tree_in store.now) refname.now no_marks (snapshots_at store.now (map name_bytes commits.now)))
        result }
    ensures marks { OnOk result (marks_in store.now marks.new
        ≡ marks_behind (tree_in store.now) no_marks (snapshots_at store.now (map name_bytes commits.now))) }
    ensures store { 0 < length commits.now → OnOk result (IsStore store.now) }
{
    for name in commits {
        write_commit(store, refname, name, marks, sink, kept)?;
    }
    Ok(())
}

// Writes one commit at least, and then the ref.
fn write_text<O: Sink>(
    store: &Store,
    commits: &[Name],
    refname: &RefName,
    marks: &mut GivenMarks,
    sink: &mut O,
    kept: &mut Vec<u8>,
) -> Result<(), ExportError>
    requires commits { AreCommitsIn store.now (map name_bytes commits.now) }
    requires some { 0 < length commits.now }
    requires marks { marks.old ≡ no_given }
    ensures put { IsPut O.tells O.written O.faults O.refusals sink.old sink.new kept.old.items kept.new.items
        (changes_text (tree_in store.now) (snapshots_at store.now (map name_bytes commits.now)) refname.now) result }
    ensures none { OnOk result (kept.new.items ≡ []) }
{
    write_commits(store, commits, refname, marks, sink, kept)?;
    add_last(kept, refname, marks.next() - 1)?;
    send(sink, kept)
}

/// Writes the stream of git-fast-import(1) that makes these commits on a ref, each with what it changes in the tree of
/// its first parent, as git-fast-export(1) writes it: each blob once, in front of the first commit that puts it, and at
/// the end the ref, set to the last commit. A parent that isn't one of the commits before is named by its digits, and
/// must be there where the stream is read. For no commits nothing is written. The sink gets pieces of at least 262,144
/// bytes, but for the last one.
///
/// Each commit comes once. After an error the sink has a front of the text.
pub fn write_changes<O: Sink>(
    alloc: Global,
    store: &Store,
    commits: &[Name],
    refname: &RefName,
    sink: &mut O,
) -> Result<(), ExportError>
    requires { AreCommitsIn store.now (map name_bytes commits.now) }
    ensures text { OnOk result (Appends (O.written sink.old) (O.written sink.new)
        (changes_text (tree_in store.now) (snapshots_at store.now (map name_bytes commits.now)) refname.now)) }
    ensures front { OnErr result ((n : ℕ) × Appends (O.written sink.old) (O.written sink.new) (take n
        (changes_text (tree_in store.now) (snapshots_at store.now (map name_bytes commits.now)) refname.now))) }
    ensures told { O.tells sink.new ↔ O.tells sink.old }
    ensures fault { Counts (O.faults sink.old) (O.faults sink.new) (IsErrOf result ExportError.Fault) }
    ensures memory { O.refusals sink.old ≤ O.refusals sink.new }
{
    if commits.is_empty() {
        return Ok(());
    }
    let mut kept = Vec::with_capacity(alloc, 2 * PIECE)?;
    let mut marks = GivenMarks::new(alloc);
    write_text(store, commits, refname, &mut marks, sink, &mut kept)
}
