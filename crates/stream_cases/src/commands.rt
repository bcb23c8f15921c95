// How the commands of a stream are printed.
use crate::names::add_bracketed;
use case_lines::{add_digits, add_path, add_printed};
use fast_import::{BlobRef, Change, Command, CommitHead, CommitRef, Placed, TagHead, Target};
use git_objects::Mode;
use path_names::Path;
use std::alloc::AllocError;

/// Adds the line of a command behind its place.
pub fn add_line(out: &mut String, placed: &Placed) -> Result<(), AllocError> {
    write!(out, "{} ", placed.at)?;
    add_command(out, &placed.command)?;
    out.push('\n')
}

fn add_command(out: &mut String, command: &Command) -> Result<(), AllocError> {
    match command {
        Command::Blob { mark, content } => add_blob(out, *mark, content.bytes()),
        Command::Commit(head) => add_head(out, head),
        Command::Change(change) => add_change(out, change),
        Command::CommitEnd => out.push_str("commit end"),
        Command::Reset { refname, from } => add_reset(out, refname.text(), from),
        Command::Tag(head) => add_tag(out, head),
        Command::Done => out.push_str("done"),
    }
}

fn add_blob(out: &mut String, mark: Option<u64>, content: &[u8]) -> Result<(), AllocError> {
    out.push_str("blob ")?;
    add_mark(out, mark)?;
    out.push(' ')?;
    add_bracketed(out, content)
}

fn add_reset(out: &mut String, refname: &[u8], from: &Option<CommitRef>) -> Result<(), AllocError> {
    out.push_str("reset ")?;
    add_printed(out, refname)?;
    out.push(' ')?;
    add_from(out, from)
}

// A mark, or `-` for none.
fn add_mark(out: &mut String, mark: Option<u64>) -> Result<(), AllocError> {
    match mark {
        None => out.push('-'),
        Some(mark) => write!(out, "{mark}"),
    }
}

// A commit behind the place of the line that names it.
fn add_ref(out: &mut String, found: &CommitRef) -> Result<(), AllocError> {
    write!(out, "{}:", found.at)?;
    add_target(out, &found.target)
}

fn add_target(out: &mut String, target: &Target) -> Result<(), AllocError> {
    match target {
        Target::Mark(mark) => write!(out, "{mark}"),
        Target::Digits(name) => add_digits(out, name),
        Target::Ref(refname) => add_printed(out, refname.text()),
    }
}

fn add_from(out: &mut String, from: &Option<CommitRef>) -> Result<(), AllocError> {
    match from {
        None => out.push('-'),
        Some(found) => add_ref(out, found),
    }
}

// Ref, mark, author, committer and message, and then the parents.
fn add_head(out: &mut String, head: &CommitHead) -> Result<(), AllocError> {
    out.push_str("commit ")?;
    add_printed(out, head.refname.text())?;
    out.push(' ')?;
    add_mark(out, head.mark)?;
    add_texts(out, head)?;
    add_parents(out, head)
}

fn add_texts(out: &mut String, head: &CommitHead) -> Result<(), AllocError> {
    out.push(' ')?;
    add_bracketed(out, head.author.bytes())?;
    out.push(' ')?;
    add_bracketed(out, head.committer.bytes())?;
    out.push(' ')?;
    add_bracketed(out, head.message.bytes())
}

fn add_parents(out: &mut String, head: &CommitHead) -> Result<(), AllocError> {
    out.push(' ')?;
    add_from(out, &head.from)?;
    for merge in head.merges.refs() {
        out.push(' ')?;
        add_ref(out, merge)?;
    }
    Ok(())
}

// Name, mark, tagger and message, and then the commit.
fn add_tag(out: &mut String, head: &TagHead) -> Result<(), AllocError> {
    out.push_str("tag ")?;
    add_printed(out, head.name.text())?;
    out.push(' ')?;
    add_mark(out, head.mark)?;
    add_tag_texts(out, head)?;
    out.push(' ')?;
    add_ref(out, &head.from)
}

fn add_tag_texts(out: &mut String, head: &TagHead) -> Result<(), AllocError> {
    out.push(' ')?;
    add_bracketed(out, head.tagger.bytes())?;
    out.push(' ')?;
    add_bracketed(out, head.message.bytes())
}

fn mode_text(mode: Mode) -> &'static str {
    match mode {
        Mode::File => "File",
        Mode::Exec => "Exec",
        Mode::Link => "Link",
        Mode::Module => "Module",
        Mode::Dir => "Dir",
    }
}

fn add_blob_ref(out: &mut String, blob: &BlobRef) -> Result<(), AllocError> {
    match blob {
        BlobRef::Mark(mark) => write!(out, "{mark}"),
        BlobRef::Digits(name) => add_digits(out, name),
        BlobRef::Inline(bytes) => add_bracketed(out, bytes.bytes()),
    }
}

fn add_change(out: &mut String, change: &Change) -> Result<(), AllocError> {
    match change {
        Change::Modify { mode, blob, path } => add_modify(out, *mode, blob, path),
        Change::Delete { path } => add_delete(out, path),
        Change::Rename { from, to } => add_moved(out, "R ", from, to),
        Change::Copy { from, to } => add_moved(out, "C ", from, to),
        Change::DeleteAll => out.push_str("deleteall"),
    }
}

fn add_modify(out: &mut String, mode: Mode, blob: &BlobRef, path: &Path) -> Result<(), AllocError> {
    write!(out, "M {} ", mode_text(mode))?;
    add_blob_ref(out, blob)?;
    out.push(' ')?;
    add_path(out, path)
}

fn add_delete(out: &mut String, path: &Path) -> Result<(), AllocError> {
    out.push_str("D ")?;
    add_path(out, path)
}

fn add_moved(out: &mut String, word: &str, from: &Path, to: &Path) -> Result<(), AllocError> {
    out.push_str(word)?;
    add_path(out, from)?;
    out.push_str(" > ")?;
    add_path(out, to)
}
