// Paths in filter texts: bare, or between quotes.
ghost use Rattle.std.specs.Prelude.{◌≡◌, ◌≤◌, IfOk, length, position};
ghost use Rattle.filter_text.specs.Texts.{as_path, quoted_at, cut, ends_bare, bare_len, without_slash, name_at};
ghost use Rattle.filter_text.specs.Texts.{kept_name_at, equals, target_at};
ghost use Rattle.filter_text.specs.Views.{path_read, target_read};

use crate::gaps::past_blanks;
use crate::word::begins;
use path_names::{Path, QuoteFault, path_in, strip, unquote};
use std::alloc::{AllocError, Global};

// Whether a bare path ends before the byte.
pub fn ends_bare(x: u8) -> bool
    ensures { result ≡ ends_bare x }
{
    x <= 32
        || matches!(
            x,
            127 | b':' | b',' | b'[' | b']' | b'=' | b'"' | b'#' | b'*'
        )
}

fn first_end(text: &[u8]) -> Option<usize>
    ensures { result ≡ position ends_bare text.now }
{
    text.iter().position(|x| ends_bare(*x))
}

// How many bytes a bare path has.
fn bare_len(text: &[u8]) -> usize
    ensures value { result ≡ bare_len text.now }
    ensures within { result ≤ length text.now }
{
    match first_end(text) {
        Some(n) => n,
        None => text.len(),
    }
}

// One less where the text's last byte is a slash.
fn without_slash(text: &[u8]) -> usize
    ensures value { result ≡ without_slash text.now }
    ensures within { result ≤ length text.now }
{
    if text.ends_with(b"/") {
        text.len() - 1
    } else {
        text.len()
    }
}

// A path of so many bytes at the front of a text, and what follows it.
fn bare_path<'a>(
    alloc: Global,
    text: &'a [u8],
    len: usize,
) -> Result<Option<(Path, &'a [u8])>, AllocError>
    requires { len ≤ length text.now }
    ensures { IfOk result (λ read. path_read read ≡ as_path (cut len text.now)) }
{
    let (name, rest) = text.split_at(len);
    match path_in(alloc, name)? {
        None => Ok(None),
        Some(path) => Ok(Some((path, rest))),
    }
}

// A path between quotes at the front of a text, and what follows it.
fn quoted_path<'a>(alloc: Global, text: &'a [u8]) -> Result<Option<(Path, &'a [u8])>, AllocError>
    ensures { IfOk result (λ read. path_read read ≡ as_path (quoted_at text.now)) }
{
    match unquote(alloc, text) {
        Err(QuoteFault::OutOfMemory) => Err(AllocError),
        Err(QuoteFault::Bad) => Ok(None),
        Ok(name) => match path_in(alloc, name.bytes.bytes())? {
            None => Ok(None),
            Some(path) => Ok(Some((path, &text[name.used..]))),
        },
    }
}

// The path at the front of a text, and what follows it.
#[tactic(auto, unfolding(crate::specs::Texts::name_at))]
pub fn name_at<'a>(alloc: Global, text: &'a [u8]) -> Result<Option<(Path, &'a [u8])>, AllocError>
    ensures { IfOk result (λ read. path_read read ≡ name_at text.now) }
{
    if begins(b'"', text) {
        return quoted_path(alloc, text);
    }
    bare_path(alloc, text, bare_len(text))
}

// The path at the front of a text, of which a bare one leaves a slash at its end to what follows.
#[tactic(auto, unfolding(crate::specs::Texts::kept_name_at))]
pub fn kept_name_at<'a>(
    alloc: Global,
    text: &'a [u8],
) -> Result<Option<(Path, &'a [u8])>, AllocError>
    ensures { IfOk result (λ read. path_read read ≡ kept_name_at text.now) }
{
    if begins(b'"', text) {
        return quoted_path(alloc, text);
    }
    let bare = bare_len(text);
    bare_path(alloc, text, without_slash(&text[..bare]))
}

// What stands behind a target's path, its `=` and the blanks around that.
fn equals<'a>(path: Path, text: &'a [u8]) -> Option<(Option<Path>, &'a [u8])>
    ensures { target_read result ≡ equals (path, text.now) }
{
    match strip(b"=", past_blanks(text)) {
        None => None,
        Some(rest) => Some((Some(path), past_blanks(rest))),
    }
}

// The target in front of a member that doesn't begin with a colon, and what follows its `=`.
#[tactic(auto, unfolding(crate::specs::Texts::target_at))]
pub fn target_at<'a>(
    alloc: Global,
    text: &'a [u8],
) -> Result<Option<(Option<Path>, &'a [u8])>, AllocError>
    ensures { IfOk result (λ read. target_read read ≡ target_at text.now) }
{
    if begins(b':', text) {
        return Ok(Some((None, text)));
    }
    match name_at(alloc, text)? {
        None => Ok(None),
        Some((path, rest)) => Ok(equals(path, rest)),
    }
}
