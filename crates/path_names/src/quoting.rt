// Texts between double quotes.
ghost use Rattle.std.specs.Prelude.{◌≡◌, ◌≤◌, ◌⊎◌, ◌++◌, ◌∷◌, [], None, Some, true, length};
ghost use Rattle.std.specs.Prelude.{drop, IfOk, IfSome};
ghost use Rattle.std.specs.Prelude.{OnOk, MatchOption, MatchResult};
ghost use Rattle.std.specs.List.{list_any, position, position_or_len};
ghost use Rattle.path_names.specs.Quoting.{quote, quoted, quoted_byte, is_special, short, unquote, unquoted};
ghost use Rattle.path_names.specs.Quoting.{unshort, behind, is_marked, octal_of, Slash, Plain};

use git_objects::Bytes;
use std::alloc::{AllocError, Global};

/// What stood between quotes.
#[derive(Debug, Drop)]
pub struct Unquoted {
    pub bytes: Bytes,
    /// The bytes of the text up to and with the closing quote.
    pub used: usize,
}

/// Why a text is not unquoted.
#[derive(Clone, Copy, Debug, PartialEq, Eq)]
pub enum QuoteFault {
    /// The text doesn't begin with a quote, an escape is unknown, an LF stands inside, or the closing quote is missing.
    Bad,
    OutOfMemory,
}

/// The text itself, or between double quotes where a byte is below 32, 127, a double quote or a backslash
/// (git-fast-import(1), the C-style quoting of paths).
#[tactic(auto, unfolding(crate::specs::Quoting::quote))]
pub fn quote(alloc: Global, text: &[u8]) -> Result<Vec<u8>, AllocError>
    ensures { IfOk result (λ q. q.items ≡ quote text.now) }
{
    if wants_quotes(text) {
        return quoted(alloc, text);
    }
    text.to_vec(alloc)
}

/// The text between double quotes, whatever its bytes.
pub fn quoted(alloc: Global, text: &[u8]) -> Result<Vec<u8>, AllocError>
    ensures { IfOk result (λ q. q.items ≡ quoted text.now) }
{
    let mut out = Vec::with_capacity(alloc, text.len().saturating_add(2))?;
    out.push(b'"')?;
    let mut rest = text;
    loop {
        let (plain, more) = rest.split_at(plain_len(rest));
        out.extend_from_slice(plain)?;
        let [special, others @ ..] = more else {
            break;
        };
        add_escaped(&mut out, *special)?;
        rest = others;
    }
    out.push(b'"')?;
    Ok(out)
}

/// Reads a text that begins with a double quote up to and with its closing quote. What follows is not looked at.
pub fn unquote(alloc: Global, text: &[u8]) -> Result<Unquoted, QuoteFault>
    ensures told { MatchResult result (λ u. unquote text.now ≡ Some (u.bytes, u.used))
        (λ fault. (fault ≡ QuoteFault.OutOfMemory) ⊎ ((fault ≡ QuoteFault.Bad) × (unquote text.now ≡ None))) }
    ensures within { IfOk result (λ u. u.used ≤ length text.now) }
{
    let [first, inside @ ..] = text else {
        return Err(QuoteFault::Bad);
    };
    if *first != b'"' {
        return Err(QuoteFault::Bad);
    }
    let mut bytes = Vec::new(alloc);
    let mut rest = inside;
    'runs: loop {
        let (plain, more) = rest.split_at(inert_len(rest));
        let Ok(()) = bytes.extend_from_slice(plain) else {
            return Err(QuoteFault::OutOfMemory);
        };
        let [mark, behind @ ..] = more else {
            return Err(QuoteFault::Bad);
        };
        if *mark == b'"' {
            return Ok(Unquoted {
                bytes: Bytes::of(bytes),
                used: text.len() - behind.len(),
            });
        }
        if *mark != b'\\' {
            return Err(QuoteFault::Bad);
        }
        let Some((byte, taken)) = escaped(behind) else {
            return Err(QuoteFault::Bad);
        };
        let Ok(()) = bytes.push(byte) else {
            return Err(QuoteFault::OutOfMemory);
        };
        rest = &behind[taken..];
    }
}

// Whether a byte is escaped between quotes.
fn is_special(x: u8) -> bool
    ensures { result ≡ is_special x }
{
    x < 32 || x == 127 || x == b'"' || x == b'\\'
}

// Whether some byte is escaped between quotes.
fn wants_quotes(text: &[u8]) -> bool
    ensures { result ≡ list_any is_special text.now }
{
    text.iter().any(|x| is_special(*x))
}

// How many bytes stand before the first that is escaped.
fn plain_len(text: &[u8]) -> usize
    ensures { result ≡ position_or_len is_special text.now }
{
    match first_special(text) {
        Some(n) => n,
        None => text.len(),
    }
}

fn first_special(text: &[u8]) -> Option<usize>
    ensures { result ≡ position is_special text.now }
{
    text.iter().position(|x| is_special(*x))
}

// The letter behind a backslash that stands for the byte.
fn letter_of(x: u8) -> Option<u8>
    ensures { result ≡ short x }
{
    match x {
        7 => Some(b'a'),
        8 => Some(b'b'),
        b'\t' => Some(b't'),
        b'\n' => Some(b'n'),
        11 => Some(b'v'),
        12 => Some(b'f'),
        b'\r' => Some(b'r'),
        b'"' => Some(b'"'),
        b'\\' => Some(b'\\'),
        _ => None,
    }
}

// Adds the letter of a byte that is escaped, or its three octal digits.
#[tactic(auto, unfolding(crate::specs::Quoting::quoted_byte))]
fn add_escaped(out: &mut Vec<u8>, x: u8) -> Result<(), AllocError>
    requires { is_special x ≡ true }
    ensures { OnOk result (out.new.items ≡ out.old.items ++ quoted_byte x) }
{
    match letter_of(x) {
        Some(letter) => out.extend_from_slice(&[b'\\', letter]),
        None => {
            let digits = [b'0' + x / 8 / 8, b'0' + x / 8 % 8, b'0' + x % 8];
            out.extend_from_slice(&[b'\\', digits[0], digits[1], digits[2]])
        }
    }
}

// How many bytes stand before the first that isn't read as itself.
fn inert_len(text: &[u8]) -> usize
    ensures { result ≡ position_or_len is_marked text.now }
{
    match first_marked(text) {
        Some(n) => n,
        None => text.len(),
    }
}

fn first_marked(text: &[u8]) -> Option<usize>
    ensures { result ≡ position is_marked text.now }
{
    text.iter()
        .position(|x| *x == b'"' || *x == b'\\' || *x == b'\n')
}

// The byte that a letter behind a backslash stands for.
fn byte_of(letter: u8) -> Option<u8>
    ensures { result ≡ unshort letter }
{
    match letter {
        b'a' => Some(7),
        b'b' => Some(8),
        b't' => Some(b'\t'),
        b'n' => Some(b'\n'),
        b'v' => Some(11),
        b'f' => Some(12),
        b'r' => Some(b'\r'),
        b'"' => Some(b'"'),
        b'\\' => Some(b'\\'),
        _ => None,
    }
}

// The byte that an escape stands for, and the bytes that it has behind its backslash.
fn escaped(text: &[u8]) -> Option<(u8, usize)>
    ensures byte { MatchOption result (unquoted Slash text.now ≡ None)
        (λ r. unquoted Slash text.now ≡ behind (r.0 ∷ []) r.1 (unquoted Plain (drop r.1 text.now))) }
    ensures within { IfSome result (λ r. r.1 ≤ length text.now) }
{
    let [first, ..] = text else {
        return None;
    };
    if let Some(byte) = byte_of(*first) {
        return Some((byte, 1));
    }
    let byte = octal(text)?;
    Some((byte, 3))
}

// The byte of three octal digits.
fn octal(text: &[u8]) -> Option<u8>
    ensures { result ≡ octal_of text.now }
{
    let [a, b, c, ..] = text else {
        return None;
    };
    if !(b'0'..=b'3').contains(a) {
        return None;
    }
    if !(b'0'..=b'7').contains(b) {
        return None;
    }
    if !(b'0'..=b'7').contains(c) {
        return None;
    }
    Some(64 * (a - b'0') + 8 * (b - b'0') + (c - b'0'))
}
