// Idents: who made a commit, and when.
ghost use Rattle.std.specs.Prelude.{◌≡◌, ◌==◌, ℕ, List, IfOk, IsErrOf, position, true, false};
ghost use Rattle.std.specs.List.{list_all};
ghost use Rattle.std.specs.Option.{option_map};
ghost use Rattle.git_objects.specs.Idents.{is_ident, is_ident_name, is_ident_rest, is_ident_end, is_time, is_offset};
ghost use Rattle.git_objects.specs.Idents.{is_quiet, is_number, is_digit, ends_in_space, cut_at};

use std::alloc::{AllocError, Global};
use std::marker::Model;
use thiserror::Error;

/// Why a text is not an ident.
#[derive(Clone, Copy, Debug, PartialEq, Eq, Error)]
pub enum IdentFault {
    #[error("not an ident")]
    Bad,
    #[error("out of memory")]
    OutOfMemory,
}

/// A name, an email in angle brackets, the seconds since 1970 and the offset of the time zone, in the raw form of
/// git-fast-import(1).
#[derive(Debug, Drop)]
pub struct Ident {
    inner: Vec<u8>,
}

impl Model for Ident {
    ghost Value = { List ℕ };

    ghost view = { λ i. i.inner.items };

    ghost invariant = { λ i. is_ident i.inner.items ≡ true };
}

impl Ident {
    /// Bad where the text is no ident.
    pub fn parse(alloc: Global, text: &[u8]) -> Result<Ident, IdentFault>
        ensures ok { IfOk result (λ ident. (ident ≡ text.now) × (is_ident text.now ≡ true)) }
        ensures bad { IsErrOf result IdentFault.Bad → is_ident text.now ≡ false }
        ensures refused { is_ident text.now ≡ false → IsErrOf result IdentFault.Bad }
    {
        if !is_ident(text) {
            return Err(IdentFault::Bad);
        }
        match text.to_vec(alloc) {
            Ok(inner) => Ok(Ident { inner }),
            Err(_) => Err(IdentFault::OutOfMemory),
        }
    }

    pub fn bytes(&self) -> &[u8]
        ensures bytes { result.now ≡ self.now }
        ensures ident { is_ident self.now ≡ true }
    {
        &self.inner
    }

    pub fn copy(&self, alloc: Global) -> Result<Ident, AllocError>
        ensures { IfOk result (λ copy. copy ≡ self.now) }
    {
        Ok(Ident {
            inner: self.inner.to_vec(alloc)?,
        })
    }
}

#[inline(always)]
fn first_of(byte: u8, text: &[u8]) -> Option<usize>
    ensures { result ≡ position (λ x. x == byte) text.now }
{
    text.iter().position(|x| *x == byte)
}

/// What stands before the first byte of that value, and what stands after it; None where there is none. Takes no
/// memory.
#[inline(always)]
pub fn cut(byte: u8, text: &[u8]) -> Option<(&[u8], &[u8])>
    ensures { option_map (λ r. (r.0.now, r.1.now)) result ≡ cut_at byte text.now }
{
    match first_of(byte, text) {
        None => None,
        Some(at) => Some((&text[..at], &text[at + 1..])),
    }
}

fn all_digits(text: &[u8]) -> bool
    ensures { result ≡ list_all is_digit text.now }
{
    text.iter().all(|x| 48 <= *x && *x <= 57)
}

fn is_number(most: usize, text: &[u8]) -> bool
    ensures { result ≡ is_number most text.now }
{
    if text.is_empty() {
        return false;
    }
    if text.len() > most {
        return false;
    }
    all_digits(text)
}

fn is_quiet(text: &[u8]) -> bool
    ensures { result ≡ is_quiet text.now }
{
    text.iter()
        .all(|x| *x != b'<' && *x != b'>' && *x != b'\n' && *x != 0)
}

fn ends_in_space(text: &[u8]) -> bool
    ensures { result ≡ ends_in_space text.now }
{
    match text.last() {
        None => false,
        Some(x) => *x == b' ',
    }
}

fn is_ident_name(text: &[u8]) -> bool
    ensures { result ≡ is_ident_name text.now }
{
    is_quiet(text) && (text.is_empty() || ends_in_space(text))
}

fn is_offset(text: &[u8]) -> bool
    ensures { result ≡ is_offset text.now }
{
    match text {
        [] => false,
        [sign, zone @ ..] => (*sign == b'+' || *sign == b'-') && is_number(8, zone),
    }
}

fn is_time(text: &[u8]) -> bool
    ensures { result ≡ is_time text.now }
{
    match cut(b' ', text) {
        None => false,
        Some((seconds, offset)) => is_number(18, seconds) && is_offset(offset),
    }
}

fn is_ident_end(text: &[u8]) -> bool
    ensures { result ≡ is_ident_end text.now }
{
    match text {
        [] => false,
        [space, time @ ..] => *space == b' ' && is_time(time),
    }
}

fn is_ident_rest(text: &[u8]) -> bool
    ensures { result ≡ is_ident_rest text.now }
{
    match cut(b'>', text) {
        None => false,
        Some((email, end)) => is_quiet(email) && is_ident_end(end),
    }
}

#[tactic(auto, unfolding(crate::specs::Idents::is_ident))]
pub fn is_ident(text: &[u8]) -> bool
    ensures { result ≡ is_ident text.now }
{
    match cut(b'<', text) {
        None => false,
        Some((person, rest)) => is_ident_name(person) && is_ident_rest(rest),
    }
}
