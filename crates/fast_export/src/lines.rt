// Lines of git-fast-import(1), added to a text.
ghost use Rattle.std.specs.Prelude.{◌≡◌, ◌++◌, ◌∷◌, [], codes, decimal, OnOk};
ghost use Rattle.git_objects.specs.Names.{mode_text};
ghost use Rattle.fast_export.specs.ExportTexts.{line, mark_line};
ghost use Rattle.stream_reader.specs.Changes.{is_module};
ghost use Rattle.fast_export.specs.Given.{data_ref, leaf_text};

use crate::given::GivenMarks;
use git_objects::Mode;
use itoa::Buffer;
use path_names::quote;
use path_trees::Leaf;
use std::alloc::{AllocError, Global};

/// A word and a value.
pub fn add_line(out: &mut Vec<u8>, word: &[u8], value: &[u8]) -> Result<(), AllocError>
    ensures { OnOk result (out.new.items ≡ out.old.items ++ line word.now value.now) }
{
    out.extend_from_slice(word)?;
    out.extend_from_slice(value)?;
    out.push(b'\n')?;
    Ok(())
}

/// A word, a colon and a mark.
pub fn add_mark_line(out: &mut Vec<u8>, word: &[u8], number: u64) -> Result<(), AllocError>
    ensures { OnOk result (out.new.items ≡ out.old.items ++ mark_line word.now number) }
{
    let mut buffer = Buffer::new();
    out.extend_from_slice(word)?;
    out.push(b':')?;
    out.extend_from_slice(buffer.format(number).as_bytes())?;
    out.push(b'\n')?;
    Ok(())
}

/// The line in front of so many bytes.
pub fn add_data_line(out: &mut Vec<u8>, size: usize) -> Result<(), AllocError>
    ensures { OnOk result (out.new.items ≡ out.old.items ++ line (codes "data ") (decimal size)) }
{
    let mut buffer = Buffer::new();
    add_line(out, b"data ", buffer.format(size).as_bytes())
}

/// Whether a leaf of that mode is another repository's commit.
pub fn is_module(mode: Mode) -> bool
    ensures { result ≡ is_module mode }
{
    mode == Mode::Module
}

// The digits of a leaf's mode.
fn digits(mode: Mode) -> &'static [u8]
    ensures { result.now ≡ mode_text mode }
{
    match mode {
        Mode::File => b"100644",
        Mode::Exec => b"100755",
        Mode::Link => b"120000",
        Mode::Module => b"160000",
        Mode::Dir => b"40000",
    }
}

// The digits of a module, or a blob's mark.
fn add_data_ref(out: &mut Vec<u8>, leaf: Leaf, number: u64) -> Result<(), AllocError>
    ensures { OnOk result (out.new.items ≡ out.old.items ++ data_ref leaf.mode leaf.name.0 number) }
{
    if is_module(leaf.mode) {
        return out.extend_from_slice(&leaf.name.hex());
    }
    let mut buffer = Buffer::new();
    out.push(b':')?;
    out.extend_from_slice(buffer.format(number).as_bytes())
}

/// The line that puts a leaf at a path, of which this is the text.
pub fn add_leaf_line(
    alloc: Global,
    out: &mut Vec<u8>,
    marks: &GivenMarks,
    text: &[u8],
    leaf: Leaf,
) -> Result<(), AllocError>
    ensures { OnOk result (out.new.items ≡ out.old.items ++ leaf_text marks.now leaf text.now) }
{
    let quoted = quote(alloc, text)?;
    out.extend_from_slice(b"M ")?;
    out.extend_from_slice(digits(leaf.mode))?;
    out.push(b' ')?;
    add_data_ref(out, leaf, marks.blob(&leaf.name).unwrap_or(0))?;
    out.push(b' ')?;
    add_line(out, &quoted, b"")
}
