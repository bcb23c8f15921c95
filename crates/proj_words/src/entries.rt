// The entries that the input of a batch spells.
ghost use Rattle.std.specs.Prelude.{◌≡◌, ◌⊎◌, ◌+◌, ◌^◌, ◌<◌};
ghost use Rattle.std.specs.Prelude.{◌≤◌, Ok, Err, true, length, map};
ghost use Rattle.std.specs.Prelude.{IfErr, IfOk, IfSome, MatchResult, OnOk, [], ◌∷◌, ◌++◌};
ghost use Rattle.std.specs.Option.{option_map};
ghost use Rattle.proj_words.specs.Entries.{byte_count, entries, has_bytes, is_entry_fault, line_at};
ghost use Rattle.proj_words.specs.Views.{GivesEntry, IsLineFault, entry_value, line_value, spot_value};

use crate::Outcome;
use crate::cut::cut;
use path_names::{number, strip};
use std::alloc::{AllocError, Global};

/// An entry of a batch: a line of words, and the bytes that are its command's input.
#[derive(Clone, Copy)]
pub struct Entry<'a> {
    pub words: &'a [u8],
    pub input: &'a [u8],
}

// What is still to be read, and the place of its first byte.
#[derive(Clone, Copy)]
struct Spot<'a> {
    at: u64,
    rest: &'a [u8],
}

// The bytes of a line, whether it ends in an LF, and what follows it.
#[derive(Clone, Copy)]
struct TextLine<'a> {
    bytes: &'a [u8],
    ended: bool,
    next: Spot<'a>,
}

// The next line, where a byte is left.
fn next_line<'a>(spot: Spot<'a>) -> Option<TextLine<'a>>
    requires { spot.at + length spot.rest.now ≤ 2 ^ 29 }
    ensures line { option_map line_value result ≡ line_at (spot_value spot.entry) }
    ensures same_end { IfSome result (λ line.
        line.next.at + length line.next.rest.now ≡ spot.entry.at + length spot.entry.rest.now) }
    ensures shorter { IfSome result (λ line. length line.next.rest.now < length spot.entry.rest.now) }
{
    if spot.rest.is_empty() {
        return None;
    }
    Some(match cut(b'\n', spot.rest) {
        None => TextLine {
            bytes: spot.rest,
            ended: false,
            next: Spot {
                at: spot.at + spot.rest.len() as u64,
                rest: &[],
            },
        },
        Some((bytes, rest)) => TextLine {
            bytes,
            ended: true,
            next: Spot {
                at: spot.at + bytes.len() as u64 + 1,
                rest,
            },
        },
    })
}

// How many bytes a line `bytes N` says, in 1 to 9 digits.
fn byte_count(line: &[u8]) -> Option<u64>
    ensures { result ≡ byte_count line.now }
{
    let digits = strip(b"bytes ", line)?;
    if digits.len() > 9 {
        return None;
    }
    number(digits)
}

// Whether so many bytes follow, and then an LF.
fn has_bytes(n: u64, rest: &[u8]) -> bool
    ensures value { result ≡ has_bytes n rest.now }
    ensures room { result ≡ true → n < length rest.now }
{
    if n >= rest.len() as u64 {
        return false;
    }
    rest[n as usize] == b'\n'
}

// The entry behind its line of words, and what follows it, or the place of the line that doesn't fit.
fn read_entry<'a>(line: TextLine<'a>) -> Result<(Entry<'a>, Spot<'a>), u64>
    requires { line.next.at + length line.next.rest.now ≤ 2 ^ 29 }
    ensures entry { MatchResult result
        (λ r. GivesEntry (line_value line.entry) (entry_value r.0) (spot_value r.1))
        (λ at. IsLineFault (line_value line.entry) at) }
    ensures same_end { IfOk result (λ r.
        r.1.at + length r.1.rest.now ≡ line.entry.next.at + length line.entry.next.rest.now) }
    ensures shorter { IfOk result (λ r. length r.1.rest.now < length line.entry.next.rest.now) }
{
    let at = line.next.at;
    let Some(count) = next_line(line.next) else {
        return Err(at);
    };
    let Some(n) = byte_count(count.bytes) else {
        return Err(at);
    };
    let rest = count.next.rest;
    if !count.ended || !has_bytes(n, rest) {
        return Err(at);
    }
    let size = n as usize;
    let entry = Entry {
        words: line.bytes,
        input: &rest[..size],
    };
    let next = Spot {
        at: count.next.at + n + 1,
        rest: &rest[size + 1..],
    };
    Ok((entry, next))
}

fn add_entry<'a>(found: &mut Vec<Entry<'a>>, entry: Entry<'a>) -> Result<(), AllocError>
    ensures { OnOk result (found.new.items ≡ found.old.items ++ entry.entry ∷ []) }
{
    found.push(entry)?;
    Ok(())
}

/// The entries that a batch's input is, judged whole, or the place of the first line that doesn't fit.
pub fn read_entries<'a>(alloc: Global, input: &'a [u8]) -> Result<Vec<Entry<'a>>, Outcome>
    requires { length input.now ≤ 2 ^ 29 }
    ensures value { MatchResult result
        (λ found. entries input.now ≡ Ok (map entry_value found.items))
        (λ e. (e ≡ Outcome.OutOfMemory) ⊎ (entries input.now ≡ Err e)) }
    ensures cause { IfErr result (λ e. is_entry_fault e ≡ true) }
{
    let mut found = Vec::new(alloc);
    let mut spot = Spot { at: 0, rest: input };
    'entries: loop {
        match next_line(spot) {
            None => return Ok(found),
            Some(line) => match read_entry(line) {
                Err(at) => return Err(Outcome::Syntax { at }),
                Ok((entry, next)) => {
                    add_entry(&mut found, entry)?;
                    spot = next;
                }
            },
        }
    }
}
