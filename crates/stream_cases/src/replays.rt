// Whole streams, replayed.
ghost use Rattle.std.specs.Prelude.{◌<◌};

use case_lines::{Fault, add_digits, add_printed};
use fast_import::{EmptyBase, Made, ReplayError, Replayed, Setting, replay_all};
use object_store::Store;
use proj_io::MemSource;
use std::alloc::{AllocError, Global};

fn add_commit(out: &mut String, commit: &Made) -> Result<(), AllocError> {
    add_digits(out, &commit.name)?;
    out.push_str(" tree ")?;
    add_digits(out, &commit.tree)?;
    out.push('\n')
}

fn add_head(out: &mut String, setting: &Setting) -> Result<(), AllocError> {
    add_printed(out, setting.refname.text())?;
    out.push(' ')?;
    add_digits(out, &setting.head)?;
    out.push('\n')
}

fn add_commits(out: &mut String, made: &[Made]) -> Result<(), AllocError> {
    for commit in made {
        add_commit(out, commit)?;
    }
    Ok(())
}

fn add_heads(out: &mut String, heads: &[Setting]) -> Result<(), AllocError> {
    for setting in heads {
        add_head(out, setting)?;
    }
    Ok(())
}

fn add_given(out: &mut String, given: &Result<Replayed, ReplayError>) -> Result<(), AllocError> {
    match given {
        Ok(given) => add_made(out, given),
        Err(error) => writeln!(out, "{error:?}"),
    }
}

fn add_made(out: &mut String, given: &Replayed) -> Result<(), AllocError> {
    writeln!(out, "blobs {}", given.blobs.len())?;
    add_commits(out, &given.commits)?;
    add_heads(out, &given.heads)
}

// What a stream gives that comes in pieces of at most so many bytes.
fn replayed_by(alloc: Global, text: &[u8], most: usize) -> Result<String, AllocError>
    requires { 0 < most }
{
    let mut source = MemSource::new(text.to_vec(alloc)?, most, Vec::new(alloc));
    let mut out = String::new(alloc);
    add_replayed_from(alloc, &mut out, &mut source)?;
    Ok(out)
}

fn add_replayed_from(
    alloc: Global,
    out: &mut String,
    source: &mut MemSource,
) -> Result<(), AllocError> {
    let mut store = Store::new(alloc);
    add_given(out, &replay_all(alloc, source, &EmptyBase, &mut store))
}

// Adds what a stream gives in pieces of at most so many bytes, where it is another than what it gives whole.
fn add_replayed_by(
    out: &mut String,
    text: &[u8],
    most: usize,
    whole: &str,
) -> Result<(), AllocError>
    requires { 0 < most }
{
    let pieces = replayed_by(*out.allocator(), text, most)?;
    if pieces.as_str() == whole {
        return Ok(());
    }
    out.push_str("in pieces:\n")?;
    out.push_str(pieces.as_str())
}

/// Adds what a stream gives upon nothing, from a source that gives 65,536 bytes, 7 bytes and one byte at a time: once
/// where it is the same.
pub fn add_replayed(out: &mut String, text: &[u8]) -> Result<(), Fault> {
    let whole = replayed_by(*out.allocator(), text, 65_536)?;
    out.push_str(whole.as_str())?;
    add_replayed_by(out, text, 7, whole.as_str())?;
    add_replayed_by(out, text, 1, whole.as_str()).map_err(Fault::from)
}
