// Reading the filter at the front of a text. The open brackets stand in a vector, so a text of any nesting takes no
// more of the stack than another.
ghost use Rattle.std.specs.Prelude.{◌≡◌, ◌≤◌, ◌<◌, ◌+◌, ◌*◌, ◌||◌, ◌∷◌, Some, IfOk};
ghost use Rattle.std.specs.Prelude.{length};
ghost use Rattle.std.specs.Option.{option_and_then};
ghost use Rattle.filter_text.specs.Shapes.{shape, shapes};
ghost use Rattle.filter_text.specs.Reading.{piece_of, more_pieces, bracketed, goes_on, member_of, more_members};
ghost use Rattle.filter_text.specs.Reading.{pieces_at, list_at};
ghost use Rattle.filter_text.specs.Filters.{no_more};
ghost use Rattle.filter_text.specs.Texts.{target_at};
ghost use Rattle.filter_text.specs.Nesting.{enclosed, with_front, nested, resumed, after_list, answer, left};
ghost use Rattle.filter_text.specs.Nesting.{TellsPieces};
ghost use Rattle.filter_text.specs.Views.{filters_read};

use crate::Filter;
use crate::frame::{At, Bracket, Frame};
use crate::gaps::gap;
use crate::making::{enclosed, leaf, with_member};
use crate::names::target_at;
use crate::word::{Word, begins, past_first, word_at};
use std::alloc::{AllocError, Global};
use std::mem;

// Whether a break or the closing bracket follows a member.
fn goes_on(text: &[u8]) -> bool
    ensures { result ≡ goes_on text.now }
{
    let (broken, rest) = gap(text);
    broken || begins(b']', rest)
}

// Goes on behind the pieces of a member in this bracket's list.
fn after_member<'a>(
    alloc: Global,
    frames: &mut Vec<Frame>,
    pieces: &mut Vec<Filter>,
    frame: Frame,
    text: &'a [u8],
) -> Result<(At, &'a [u8]), AllocError>
    ensures answer { IfOk result (λ r.
        resumed (frame ∷ nested frames.old.items) (Some (shapes pieces.old.items, text.now))
        ≡ answer (nested frames.new.items) (shapes pieces.new.items) r.0 r.1.now) }
    ensures left { IfOk result (λ r. left r.0 r.1.now ≤ 2 * length text.now + 2) }
{
    if !goes_on(text) {
        return Ok((At::Refused, text));
    }
    let chain = mem::replace(pieces, Vec::new(alloc));
    frames.push(with_member(frame, chain)?)?;
    Ok((At::Inside, text))
}

// Goes on behind the pieces of a chain.
fn after_chain<'a>(
    alloc: Global,
    frames: &mut Vec<Frame>,
    pieces: &mut Vec<Filter>,
    text: &'a [u8],
) -> Result<(At, &'a [u8]), AllocError>
    ensures answer { IfOk result (λ r. resumed (nested frames.old.items) (Some (shapes pieces.old.items, text.now))
        ≡ answer (nested frames.new.items) (shapes pieces.new.items) r.0 r.1.now) }
    ensures left { IfOk result (λ r. left r.0 r.1.now ≤ 2 * length text.now + 2) }
{
    match frames.pop() {
        None => Ok((At::Ended, text)),
        Some(frame) => after_member(alloc, frames, pieces, frame, text),
    }
}

// Goes on behind one more piece of a chain.
fn after_piece<'a>(
    alloc: Global,
    frames: &mut Vec<Frame>,
    pieces: &mut Vec<Filter>,
    piece: Filter,
    text: &'a [u8],
) -> Result<(At, &'a [u8]), AllocError>
    ensures answer { IfOk result (λ r.
        resumed (nested frames.old.items)
        (with_front (shapes pieces.old.items) (more_pieces pieces_at (shape piece, text.now)))
        ≡ answer (nested frames.new.items) (shapes pieces.new.items) r.0 r.1.now) }
    ensures left { IfOk result (λ r. left r.0 r.1.now ≤ 2 * length text.now + 2) }
{
    pieces.push(piece)?;
    if begins(b':', text) {
        return Ok((At::Piece, text));
    }
    after_chain(alloc, frames, pieces, text)
}

// Opens a bracket in the chain of these pieces.
fn enter<'a>(
    alloc: Global,
    frames: &mut Vec<Frame>,
    pieces: &mut Vec<Filter>,
    bracket: Bracket,
    text: &'a [u8],
) -> Result<(At, &'a [u8]), AllocError>
    ensures answer { IfOk result (λ r. resumed (nested frames.old.items) (with_front (shapes pieces.old.items)
        (option_and_then (more_pieces pieces_at) (bracketed (enclosed bracket) (list_at text.now))))
        ≡ answer (nested frames.new.items) (shapes pieces.new.items) r.0 r.1.now) }
    ensures left { IfOk result (λ r. left r.0 r.1.now ≡ 2 * length text.now + 2) }
{
    let before = mem::replace(pieces, Vec::new(alloc));
    let members = Vec::new(alloc);
    frames.push(Frame {
        bracket,
        before,
        members,
        target: None,
    })?;
    Ok((At::Inside, text))
}

// Closes this bracket.
fn close<'a>(
    alloc: Global,
    frames: &mut Vec<Frame>,
    pieces: &mut Vec<Filter>,
    frame: Frame,
    text: &'a [u8],
) -> Result<(At, &'a [u8]), AllocError>
    ensures answer { IfOk result (λ r. resumed (nested frames.old.items) (after_list frame (Some (no_more, text.now)))
        ≡ answer (nested frames.new.items) (shapes pieces.new.items) r.0 r.1.now) }
    ensures left { IfOk result (λ r. left r.0 r.1.now ≤ 2 * length text.now + 2) }
{
    let Frame {
        bracket,
        before,
        members,
        target: _,
    } = frame;
    *pieces = before;
    let piece = enclosed(alloc, bracket, members)?;
    after_piece(alloc, frames, pieces, piece, text)
}

// Reads a piece behind its word, up to its bracket where it has one.
fn behind_word<'a>(
    alloc: Global,
    frames: &mut Vec<Frame>,
    pieces: &mut Vec<Filter>,
    word: Word,
    text: &'a [u8],
) -> Result<(At, &'a [u8]), AllocError>
    ensures answer { IfOk result (λ r. resumed (nested frames.old.items) (with_front (shapes pieces.old.items)
        (option_and_then (more_pieces pieces_at) (piece_of list_at (word, text.now))))
        ≡ answer (nested frames.new.items) (shapes pieces.new.items) r.0 r.1.now) }
    ensures left { IfOk result (λ r. left r.0 r.1.now ≤ 2 * length text.now + 2) }
{
    match word {
        Word::Exclude => enter(alloc, frames, pieces, Bracket::Exclude, text),
        Word::Join => enter(alloc, frames, pieces, Bracket::Join, text),
        _ => match leaf(alloc, word, text)? {
            None => Ok((At::Refused, text)),
            Some((piece, rest)) => after_piece(alloc, frames, pieces, piece, rest),
        },
    }
}

// Reads a piece's word, and the piece where it has no bracket.
fn at_piece<'a>(
    alloc: Global,
    frames: &mut Vec<Frame>,
    pieces: &mut Vec<Filter>,
    text: &'a [u8],
) -> Result<(At, &'a [u8]), AllocError>
    ensures answer { IfOk result (λ r. answer (nested frames.old.items) (shapes pieces.old.items) At.Piece text.now
        ≡ answer (nested frames.new.items) (shapes pieces.new.items) r.0 r.1.now) }
    ensures left { IfOk result (λ r. left r.0 r.1.now < left At.Piece text.now) }
{
    match word_at(text) {
        None => Ok((At::Refused, text)),
        Some((word, rest)) => behind_word(alloc, frames, pieces, word, rest),
    }
}

// Begins a member of this bracket's list.
fn begin_member<'a>(
    alloc: Global,
    frames: &mut Vec<Frame>,
    pieces: &mut Vec<Filter>,
    frame: Frame,
    text: &'a [u8],
) -> Result<(At, &'a [u8]), AllocError>
    ensures answer { IfOk result (λ r. resumed (nested frames.old.items)
        (after_list frame
        (option_and_then (more_members list_at) (option_and_then (member_of pieces_at) (target_at text.now))))
        ≡ answer (nested frames.new.items) (shapes pieces.new.items) r.0 r.1.now) }
    ensures left { IfOk result (λ r. left r.0 r.1.now ≤ 2 * length text.now + 1) }
{
    match target_at(alloc, text)? {
        None => Ok((At::Refused, text)),
        Some((target, rest)) => {
            let Frame {
                bracket,
                before,
                members,
                target: _,
            } = frame;
            pieces.clear();
            frames.push(Frame {
                bracket,
                before,
                members,
                target,
            })?;
            Ok((At::Piece, rest))
        }
    }
}

// Reads the closing bracket of this bracket's list, or a member's target.
fn in_list<'a>(
    alloc: Global,
    frames: &mut Vec<Frame>,
    pieces: &mut Vec<Filter>,
    frame: Frame,
    text: &'a [u8],
) -> Result<(At, &'a [u8]), AllocError>
    ensures answer { IfOk result (λ r.
        answer (frame ∷ nested frames.old.items) (shapes pieces.old.items) At.Inside text.now
        ≡ answer (nested frames.new.items) (shapes pieces.new.items) r.0 r.1.now) }
    ensures left { IfOk result (λ r. left r.0 r.1.now < left At.Inside text.now) }
{
    let (_, rest) = gap(text);
    if begins(b']', rest) {
        return close(alloc, frames, pieces, frame, past_first(rest));
    }
    begin_member(alloc, frames, pieces, frame, rest)
}

// Reads the closing bracket of the innermost bracket's list, or a member's target there.
fn at_list<'a>(
    alloc: Global,
    frames: &mut Vec<Frame>,
    pieces: &mut Vec<Filter>,
    text: &'a [u8],
) -> Result<(At, &'a [u8]), AllocError>
    ensures answer { IfOk result (λ r. answer (nested frames.old.items) (shapes pieces.old.items) At.Inside text.now
        ≡ answer (nested frames.new.items) (shapes pieces.new.items) r.0 r.1.now) }
    ensures left { IfOk result (λ r. left r.0 r.1.now < left At.Inside text.now) }
{
    match frames.pop() {
        None => Ok((At::Refused, text)),
        Some(frame) => in_list(alloc, frames, pieces, frame, text),
    }
}

// One step of the reading, where it has neither ended nor been refused.
fn step<'a>(
    alloc: Global,
    frames: &mut Vec<Frame>,
    pieces: &mut Vec<Filter>,
    at: At,
    text: &'a [u8],
) -> Result<(At, &'a [u8]), AllocError>
    requires { 0 < left at text.now }
    ensures answer { IfOk result (λ r. answer (nested frames.old.items) (shapes pieces.old.items) at text.now
        ≡ answer (nested frames.new.items) (shapes pieces.new.items) r.0 r.1.now) }
    ensures left { IfOk result (λ r. left r.0 r.1.now < left at text.now) }
{
    match at {
        At::Piece => at_piece(alloc, frames, pieces, text),
        At::Inside => at_list(alloc, frames, pieces, text),
        At::Ended => Ok((At::Ended, text)),
        At::Refused => Ok((At::Refused, text)),
    }
}

// The pieces at the front of a text, one or more and as many as there are, and what follows them. None also where
// that has fewer bytes than `least`; the reading doesn't go further then.
pub fn pieces_to<'a>(
    alloc: Global,
    text: &'a [u8],
    least: usize,
) -> Result<Option<(Vec<Filter>, &'a [u8])>, AllocError>
    ensures { IfOk result (λ read. TellsPieces least (pieces_at text.now) (filters_read read)) }
{
    let mut frames = Vec::new(alloc);
    let mut pieces = Vec::new(alloc);
    let mut at = At::Piece;
    let mut rest = text;
    while at == At::Piece || at == At::Inside {
        if rest.len() < least {
            return Ok(None);
        }
        let (next, behind) = step(alloc, &mut frames, &mut pieces, at, rest)?;
        at = next;
        rest = behind;
    }
    if at == At::Ended {
        Ok(Some((pieces, rest)))
    } else {
        Ok(None)
    }
}

// The pieces at the front of a text, one or more and as many as there are, and what follows them, however long that is.
pub fn pieces_at<'a>(
    alloc: Global,
    text: &'a [u8],
) -> Result<Option<(Vec<Filter>, &'a [u8])>, AllocError>
    ensures { IfOk result (λ read. filters_read read ≡ pieces_at text.now) }
{
    pieces_to(alloc, text, 0)
}
