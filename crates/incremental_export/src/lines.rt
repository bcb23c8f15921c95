// Lines of git-fast-import(1) that only an incremental export has.
ghost use Rattle.std.specs.Prelude.{◌≡◌, ◌++◌, [], codes, map, OnOk};
ghost use Rattle.path_names.specs.Quoting.{quote};
ghost use Rattle.fast_export.specs.Given.{commit_mark, parent_word};
ghost use Rattle.fast_export.specs.ExportTexts.{line};
ghost use Rattle.incremental_export.specs.ChangeTexts.{commit_ref, parent_lines};

use fast_export::{GivenMarks, add_line, add_mark_line};
use git_objects::{CommitView, Name};
use path_names::quote;
use std::alloc::{AllocError, Global};

// The word in front of the i-th parent.
fn parent_word(i: usize) -> &'static [u8]
    ensures { result.now ≡ parent_word i }
{
    if i == 0 { b"from " } else { b"merge " }
}

// The line of a parent, the i-th one.
fn add_parent(
    out: &mut Vec<u8>,
    marks: &GivenMarks,
    i: usize,
    parent: &Name,
) -> Result<(), AllocError>
    ensures { OnOk result (out.new.items ≡ out.old.items
        ++ line (parent_word i) (commit_ref (map commit_mark marks.now.commits) parent.now.0)) }
{
    let word = parent_word(i);
    match marks.commit(parent) {
        Some(number) => add_mark_line(out, word, number),
        None => add_line(out, word, &parent.hex()),
    }
}

/// The lines of a commit's parents: their marks, or their digits where they have none.
pub fn add_parents(
    out: &mut Vec<u8>,
    marks: &GivenMarks,
    commit: &CommitView<'_>,
) -> Result<(), AllocError>
    ensures { OnOk result (out.new.items ≡ out.old.items
        ++ parent_lines (map commit_mark marks.now.commits) commit.now.parents) }
{
    for i in 0..commit.parent_count() {
        let Some(parent) = commit.parent(i) else {
            unreachable!();
        };
        add_parent(out, marks, i, &parent)?;
    }
    Ok(())
}

/// The line by which a path of this text is deleted.
pub fn add_delete_line(alloc: Global, out: &mut Vec<u8>, text: &[u8]) -> Result<(), AllocError>
    ensures { OnOk result (out.new.items ≡ out.old.items ++ line (codes "D ") (quote text.now)) }
{
    let quoted = quote(alloc, text)?;
    add_line(out, b"D ", &quoted)
}
