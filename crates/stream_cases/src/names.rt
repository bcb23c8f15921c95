// Paths, ref names and texts between quotes.
use case_lines::{Fault, add_printed};
use git_objects::Component;
use path_names::{Path, PathFault, QuoteFault, RefFault, RefName, quote, quoted, unquote};
use std::alloc::AllocError;

/// Adds what is read of one text.
pub fn add_read(out: &mut String, form: &str, text: &[u8]) -> Result<(), Fault> {
    match form {
        "path" => add_path(out, text),
        "ref" => add_ref(out, text),
        "quote" => add_quoted(out, text).map_err(Fault::from),
        "unquote" => add_unquoted(out, text),
        _ => Err(Fault::BadLine),
    }
}

/// Adds bytes as they are printed, between brackets.
pub fn add_bracketed(out: &mut String, bytes: &[u8]) -> Result<(), AllocError> {
    out.push('[')?;
    add_printed(out, bytes)?;
    out.push(']')
}

// The number of components, and the components where the text is short.
fn add_path(out: &mut String, text: &[u8]) -> Result<(), Fault> {
    match &Path::parse(*out.allocator(), text) {
        Ok(path) => add_components(out, path.components(), text.len()).map_err(Fault::from),
        Err(PathFault::OutOfMemory) => Err(Fault::OutOfMemory),
        Err(fault) => write!(out, "{fault:?}").map_err(Fault::from),
    }
}

fn add_components(
    out: &mut String,
    components: &[Component],
    length: usize,
) -> Result<(), AllocError> {
    write!(out, "{}", components.len())?;
    if length <= 100 {
        for component in components {
            out.push(' ')?;
            add_bracketed(out, component.bytes())?;
        }
    }
    Ok(())
}

// The copy of a ref name.
fn add_ref(out: &mut String, text: &[u8]) -> Result<(), Fault> {
    match &RefName::parse(*out.allocator(), text) {
        Ok(name) => add_copy(out, name).map_err(Fault::from),
        Err(RefFault::Bad) => out.push_str("Bad").map_err(Fault::from),
        Err(RefFault::OutOfMemory) => Err(Fault::OutOfMemory),
    }
}

fn add_copy(out: &mut String, name: &RefName) -> Result<(), AllocError> {
    let copy = name.copy(*out.allocator())?;
    add_printed(out, copy.text())
}

// A text as a line has it: quoted where it must be, and quoted always.
fn add_quoted(out: &mut String, text: &[u8]) -> Result<(), AllocError> {
    let alloc = *out.allocator();
    add_printed(out, &quote(alloc, text)?)?;
    out.push('\n')?;
    add_printed(out, &quoted(alloc, text)?)
}

fn add_unquoted(out: &mut String, text: &[u8]) -> Result<(), Fault> {
    match &unquote(*out.allocator(), text) {
        Ok(read) => {
            add_bracketed(out, read.bytes.bytes())?;
            write!(out, " of {} bytes", read.used).map_err(Fault::from)
        }
        Err(QuoteFault::Bad) => out.push_str("Bad").map_err(Fault::from),
        Err(QuoteFault::OutOfMemory) => Err(Fault::OutOfMemory),
    }
}
