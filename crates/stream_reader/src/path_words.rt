// Paths in lines.
ghost use Rattle.std.specs.Prelude.{◌≡◌};
ghost use Rattle.stream_reader.specs.PathWords.{path_fault, path_at, is_quoted, unquoted_at, last_path};
ghost use Rattle.stream_reader.specs.PathWords.{behind_quote, first_path, two_paths};
ghost use Rattle.stream_lex.specs.Views.{maybe_bytes};
ghost use Rattle.stream_reader.specs.Views.{Tells, same, owned_and_rest, value_read};
ghost use Rattle.stream_reader.specs.Words.{first_word};

use crate::halt::Halt;
use crate::words::first_word;
use crate::{Feature, StreamFault};
use git_objects::{Bytes, Quantity};
use path_names::{Path, PathFault, QuoteFault, unquote};
use std::alloc::Global;

// Why a text names no path; at is the place of the line.
fn path_fault(at: u64, fault: PathFault) -> StreamFault
    ensures { result ≡ path_fault at fault }
{
    match fault {
        PathFault::Empty => StreamFault::Unsupported {
            at,
            what: Feature::EmptyPath,
        },
        PathFault::BadComponent => StreamFault::BadPath { at },
        PathFault::LongComponent => StreamFault::Limit {
            at,
            which: Quantity::Component,
        },
        PathFault::TooDeep => StreamFault::Limit {
            at,
            which: Quantity::PathDepth,
        },
        PathFault::TooLong => StreamFault::Limit {
            at,
            which: Quantity::PathBytes,
        },
        PathFault::OutOfMemory => StreamFault::OutOfMemory,
    }
}

// The path that a text names; at is the place of the line.
fn path_at(alloc: Global, at: u64, text: &[u8]) -> Result<Path, Halt>
    ensures { Tells same result (path_at at text.now) }
{
    match Path::parse(alloc, text) {
        Ok(path) => Ok(path),
        Err(PathFault::OutOfMemory) => Err(Halt::Memory),
        Err(fault) => Err(Halt::Fault(path_fault(at, fault))),
    }
}

fn is_quoted(text: &[u8]) -> bool
    ensures { result ≡ is_quoted text.now }
{
    text.starts_with(b"\"")
}

// What stands between quotes, and what follows the closing one.
fn unquoted_at<'a>(alloc: Global, at: u64, text: &'a [u8]) -> Result<(Bytes, &'a [u8]), Halt>
    ensures { Tells owned_and_rest result (unquoted_at at text.now) }
{
    match unquote(alloc, text) {
        Ok(unquoted) => Ok((unquoted.bytes, &text[unquoted.used..])),
        Err(QuoteFault::Bad) => Err(Halt::Fault(StreamFault::BadPath { at })),
        Err(QuoteFault::OutOfMemory) => Err(Halt::Memory),
    }
}

// A path up to the end of its line.
#[tactic(auto, unfolding(crate::specs::PathWords::last_path))]
pub fn last_path(alloc: Global, at: u64, text: &[u8]) -> Result<Path, Halt>
    ensures { Tells same result (last_path at text.now) }
{
    if !is_quoted(text) {
        return path_at(alloc, at, text);
    }
    let (bytes, rest) = unquoted_at(alloc, at, text)?;
    if !rest.is_empty() {
        return Err(Halt::Fault(StreamFault::BadPath { at }));
    }
    path_at(alloc, at, bytes.bytes())
}

// Behind a closing quote: what follows one space, or none at the end of the line.
fn behind_quote<'a>(at: u64, text: &'a [u8]) -> Result<Option<&'a [u8]>, Halt>
    ensures { Tells maybe_bytes result (behind_quote at text.now) }
{
    match text {
        [] => Ok(None),
        [space, rest @ ..] => {
            if *space != b' ' {
                return Err(Halt::Fault(StreamFault::BadPath { at }));
            }
            Ok(Some(rest))
        }
    }
}

// A path up to a space, and what follows this space, or none at the end of the line.
#[tactic(auto, unfolding(crate::specs::PathWords::first_path))]
fn first_path<'a>(alloc: Global, at: u64, text: &'a [u8]) -> Result<(Path, Option<&'a [u8]>), Halt>
    ensures { Tells value_read result (first_path at text.now) }
{
    if !is_quoted(text) {
        let (word, rest) = first_word(text);
        let path = path_at(alloc, at, word)?;
        return Ok((path, rest));
    }
    let (bytes, rest) = unquoted_at(alloc, at, text)?;
    let rest = behind_quote(at, rest)?;
    let path = path_at(alloc, at, bytes.bytes())?;
    Ok((path, rest))
}

// Two paths.
#[tactic(auto, unfolding(crate::specs::PathWords::two_paths))]
pub fn two_paths(alloc: Global, at: u64, text: &[u8]) -> Result<(Path, Path), Halt>
    ensures { Tells same result (two_paths at text.now) }
{
    let (from, rest) = first_path(alloc, at, text)?;
    let Some(rest) = rest else {
        return Err(Halt::Fault(StreamFault::BadPath { at }));
    };
    let to = last_path(alloc, at, rest)?;
    Ok((from, to))
}
