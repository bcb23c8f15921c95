// The line of a change `M`.
ghost use Rattle.std.specs.Prelude.{◌≡◌};
ghost use Rattle.stream_reader.specs.Changes.{mode, dataref, is_module, is_digits, fitting, data_part, modify_line};
ghost use Rattle.stream_reader.specs.Views.{Tells, same};
ghost use Rattle.stream_reader.specs.Words.{first_word};

use crate::halt::Halt;
use crate::names::{digits_name, some_name};
use crate::path_words::last_path;
use crate::words::{first_word, mark};
use crate::{Feature, StreamFault};
use git_objects::{Mode, Name};
use path_names::Path;
use std::alloc::Global;

/// Where a change's bytes come from.
#[derive(Clone, Copy)]
pub enum DataRef {
    Mark(u64),
    Digits(Name),
    /// Data stands behind the line.
    Inline,
}

/// What the line of a change `M` says.
#[derive(Drop)]
pub struct ModifyLine {
    pub mode: Mode,
    pub blob: DataRef,
    pub path: Path,
}

// A mode; at is the place of the line.
#[tactic(auto, unfolding(crate::specs::Changes::mode))]
fn mode(at: u64, word: &[u8]) -> Result<Mode, Halt>
    ensures { Tells same result (mode at word.now) }
{
    if word == b"100644".as_slice() || word == b"644".as_slice() {
        return Ok(Mode::File);
    }
    if word == b"100755".as_slice() || word == b"755".as_slice() {
        return Ok(Mode::Exec);
    }
    if word == b"120000".as_slice() {
        return Ok(Mode::Link);
    }
    if word == b"160000".as_slice() {
        return Ok(Mode::Module);
    }
    if word == b"040000".as_slice() || word == b"40000".as_slice() {
        return Err(Halt::Fault(StreamFault::Unsupported {
            at,
            what: Feature::DirectoryMode,
        }));
    }
    Err(Halt::Fault(StreamFault::Syntax { at }))
}

// A mark, 40 digits of either case, or the word `inline`.
#[tactic(auto, unfolding(crate::specs::Changes::dataref))]
fn data_word(at: u64, word: &[u8]) -> Result<DataRef, Halt>
    ensures { Tells same result (dataref at word.now) }
{
    if word == b"inline".as_slice() {
        return Ok(DataRef::Inline);
    }
    if word.starts_with(b":") {
        return match mark(word) {
            None => Err(Halt::Fault(StreamFault::Syntax { at })),
            Some(n) => Ok(DataRef::Mark(n)),
        };
    }
    match digits_name(word) {
        None => Err(Halt::Fault(StreamFault::Syntax { at })),
        Some(name) => {
            let name = some_name(at, name)?;
            Ok(DataRef::Digits(name))
        }
    }
}

fn is_module(mode: Mode) -> bool
    ensures { result ≡ is_module mode }
{
    match mode {
        Mode::Module => true,
        Mode::File | Mode::Exec | Mode::Link | Mode::Dir => false,
    }
}

fn is_digits(blob: DataRef) -> bool
    ensures { result ≡ is_digits blob }
{
    match blob {
        DataRef::Digits(_) => true,
        DataRef::Mark(_) | DataRef::Inline => false,
    }
}

// A module takes digits alone.
fn fitting(at: u64, mode: Mode, blob: DataRef) -> Result<DataRef, Halt>
    ensures { Tells same result (fitting at mode blob) }
{
    if is_module(mode) {
        if !is_digits(blob) {
            return Err(Halt::Fault(StreamFault::Unsupported {
                at,
                what: Feature::LinkTarget,
            }));
        }
    }
    Ok(blob)
}

// What stands behind the mode.
fn data_part(alloc: Global, at: u64, mode: Mode, text: &[u8]) -> Result<ModifyLine, Halt>
    ensures { Tells same result (data_part at mode (first_word text.now)) }
{
    let (word, rest) = first_word(text);
    let blob = data_word(at, word)?;
    let blob = fitting(at, mode, blob)?;
    let Some(rest) = rest else {
        return Err(Halt::Fault(StreamFault::Syntax { at }));
    };
    let path = last_path(alloc, at, rest)?;
    Ok(ModifyLine { mode, blob, path })
}

// What stands behind `M` and a space.
#[tactic(auto, unfolding(crate::specs::Changes::modify_line))]
pub fn modify_line(alloc: Global, at: u64, text: &[u8]) -> Result<ModifyLine, Halt>
    ensures { Tells same result (modify_line at text.now) }
{
    let (word, rest) = first_word(text);
    let mode = mode(at, word)?;
    let Some(rest) = rest else {
        return Err(Halt::Fault(StreamFault::Syntax { at }));
    };
    data_part(alloc, at, mode, rest)
}
