// How answers are printed.
use crate::Fault;
use git_objects::Name;
use path_names::Path;
use std::alloc::{AllocError, Global};

// Whether a byte is printed as it is.
fn is_plain(byte: u8) -> bool {
    matches!(byte, b' ' | b'!' | b'#'..=b'[' | b']'..=b'~')
}

/// A text as it is, or between double quotes where a byte is below 32, above 126, a double quote or a backslash: LF is
/// `\n`, and each other such byte has three octal digits. Of more than 1,000 bytes only the number is said.
pub fn printed(alloc: Global, text: &[u8]) -> Result<String, AllocError> {
    let mut out = String::new(alloc);
    add_printed(&mut out, text)?;
    Ok(out)
}

/// Adds a text as `printed` says it.
pub fn add_printed(out: &mut String, text: &[u8]) -> Result<(), AllocError> {
    if text.len() > 1000 {
        return add_length(out, text.len());
    }
    if is_all_plain(text) {
        return add_bytes(out, text);
    }
    out.push('"')?;
    add_bytes(out, text)?;
    out.push('"')
}

fn add_length(out: &mut String, length: usize) -> Result<(), AllocError> {
    let alloc = *out.allocator();
    out.push_str(format!(in alloc; "({length} bytes)")?.as_str())
}

fn is_all_plain(text: &[u8]) -> bool {
    for byte in text {
        if !is_plain(*byte) {
            return false;
        }
    }
    true
}

fn add_bytes(out: &mut String, text: &[u8]) -> Result<(), AllocError> {
    for byte in text {
        add_byte(out, *byte)?;
    }
    Ok(())
}

fn add_byte(out: &mut String, byte: u8) -> Result<(), AllocError> {
    if is_plain(byte) {
        out.push(char::from(byte))
    } else if byte == b'\n' {
        out.push_str("\\n")
    } else {
        add_octal(out, byte)
    }
}

fn add_octal(out: &mut String, byte: u8) -> Result<(), AllocError> {
    out.push('\\')?;
    for digit in [byte / 64, byte / 8 % 8, byte % 8] {
        out.push(char::from(b'0' + digit))?;
    }
    Ok(())
}

/// A path as it is printed.
pub fn path_text(alloc: Global, path: &Path) -> Result<String, AllocError> {
    printed(alloc, &path.text(alloc)?)
}

/// Adds a path as it is printed.
pub fn add_path(out: &mut String, path: &Path) -> Result<(), AllocError> {
    let text = path.text(*out.allocator())?;
    add_printed(out, &text)
}

/// Adds the digits of a name.
pub fn add_digits(out: &mut String, name: &Name) -> Result<(), AllocError> {
    for digit in &name.hex() {
        out.push(char::from(*digit))?;
    }
    Ok(())
}

/// A text as an answer.
pub fn text_of(alloc: Global, text: &str) -> Result<String, Fault> {
    String::from_str(alloc, text).map_err(Fault::from)
}
