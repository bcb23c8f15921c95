// Histories, written to a sink.
ghost use Rattle.std.specs.Prelude.{◌≡◌, ◌<◌, ◌≤◌, ◌↔◌, ◌-◌, ℕ, [], ◌++◌};
ghost use Rattle.std.specs.Prelude.{◌∷◌, codes, length, map, take, IsErrOf, OnErr, OnOk};
ghost use Rattle.std.specs.Io.KnownBytes.{Appends};
ghost use Rattle.git_objects.specs.Parts.{name_bytes};
ghost use Rattle.object_store.specs.Objects.{IsStore};
ghost use Rattle.proj_io.specs.Counts.{Counts};
ghost use Rattle.fast_export.specs.ExportTexts.{commits_text, export_text, line, mark_line, marks_behind, no_marks};
ghost use Rattle.fast_export.specs.Given.{marks_in, no_given};
ghost use Rattle.fast_export.specs.Histories.{IsHistoryIn, snapshots_at};
ghost use Rattle.fast_export.specs.Sending.{IsPut};

use crate::ExportError;
use crate::commits::write_commit;
use crate::given::GivenMarks;
use crate::kept::Kept;
use crate::lines::{add_line, add_mark_line};
use crate::sending::send;
use git_objects::Name;
use object_store::Store;
use path_names::RefName;
use proj_io::Sink;
use std::alloc::{AllocError, Global};

// Writes commits behind one another.
fn write_commits<O: Sink>(
    store: &Store,
    commits: &[Name],
    refname: &RefName,
    marks: &mut GivenMarks,
    sink: &mut O,
    kept: &mut Kept,
) -> Result<(), ExportError>
    requires history { IsHistoryIn store.now (map name_bytes commits.now) }
    requires marks { marks.old ≡ no_given }
    requires lines { kept.old.lines ≡ [] }
    ensures put { IsPut O.tells O.written O.faults O.refusals sink.old sink.new kept.old.text.items kept.new.text.items
        (commits_text refname.now no_marks (snapshots_at store.now (map name_bytes commits.now))) result }
    ensures marks { OnOk result (marks_in store.now marks.new
        ≡ marks_behind no_marks (snapshots_at store.now (map name_bytes commits.now))) }
    ensures store { 0 < length commits.now → OnOk result (IsStore store.now) }
{
    for name in commits {
        write_commit(store, refname, name, marks, sink, kept)?;
    }
    Ok(())
}

/// The lines by which the ref is set to the last commit, of which this is the mark.
pub fn add_last(out: &mut Vec<u8>, refname: &RefName, number: u64) -> Result<(), AllocError>
    ensures { OnOk result (out.new.items ≡ out.old.items
        ++ (line (codes "reset ") refname.now ++ mark_line (codes "from ") number ++ 10 ∷ [])) }
{
    add_line(out, b"reset ", refname.text())?;
    add_mark_line(out, b"from ", number)?;
    out.push(b'\n')?;
    Ok(())
}

// Writes one commit at least, and then the ref.
fn write_text<O: Sink>(
    store: &Store,
    commits: &[Name],
    refname: &RefName,
    marks: &mut GivenMarks,
    sink: &mut O,
    kept: &mut Kept,
) -> Result<(), ExportError>
    requires history { IsHistoryIn store.now (map name_bytes commits.now) }
    requires some { 0 < length commits.now }
    requires marks { marks.old ≡ no_given }
    requires lines { kept.old.lines ≡ [] }
    ensures put { IsPut O.tells O.written O.faults O.refusals sink.old sink.new kept.old.text.items kept.new.text.items
        (export_text (snapshots_at store.now (map name_bytes commits.now)) refname.now) result }
    ensures none { OnOk result (kept.new.text.items ≡ []) }
{
    write_commits(store, commits, refname, marks, sink, kept)?;
    add_last(&mut kept.text, refname, marks.next() - 1)?;
    send(sink, &mut kept.text)
}

/// Writes the stream of git-fast-import(1) that makes these commits on a ref: each with its whole tree, as
/// git-fast-export(1) writes it with `--full-tree`, each blob once, in front of the first commit that has it, and at
/// the end the ref, set to the last commit. For no commits nothing is written. The sink gets pieces of at least 262,144
/// bytes, but for the last one.
///
/// Each commit comes once, and behind its parents. After an error the sink has a front of the text.
pub fn write_history<O: Sink>(
    alloc: Global,
    store: &Store,
    commits: &[Name],
    refname: &RefName,
    sink: &mut O,
) -> Result<(), ExportError>
    requires { IsHistoryIn store.now (map name_bytes commits.now) }
    ensures text { OnOk result (Appends (O.written sink.old) (O.written sink.new)
        (export_text (snapshots_at store.now (map name_bytes commits.now)) refname.now)) }
    ensures front { OnErr result ((n : ℕ) × Appends (O.written sink.old) (O.written sink.new)
        (take n (export_text (snapshots_at store.now (map name_bytes commits.now)) refname.now))) }
    ensures told { O.tells sink.new ↔ O.tells sink.old }
    ensures fault { Counts (O.faults sink.old) (O.faults sink.new) (IsErrOf result ExportError.Fault) }
    ensures memory { O.refusals sink.old ≤ O.refusals sink.new }
{
    if commits.is_empty() {
        return Ok(());
    }
    let mut kept = Kept::new(alloc)?;
    let mut marks = GivenMarks::new(alloc);
    write_text(store, commits, refname, &mut marks, sink, &mut kept)
}
