// Filters made from their parts.
ghost use Rattle.std.specs.Prelude.{◌≡◌, IfOk};
ghost use Rattle.filter_text.specs.Shapes.{shape, shapes};
ghost use Rattle.filter_text.specs.Reading.{inside, linked, made, kept};
ghost use Rattle.filter_text.specs.Nesting.{enclosed, leaf_of, HasMember};
ghost use Rattle.filter_text.specs.Views.{filter_read};

use crate::Filter;
use crate::frame::{Bracket, Frame};
use crate::names::{kept_name_at, name_at};
use crate::word::{Word, begins, past_first};
use path_names::Path;
use std::alloc::{AllocError, Global};

// One piece as itself, several as a chain.
pub fn linked(pieces: Vec<Filter>) -> Filter
    ensures { shape result ≡ linked (shapes pieces.items) }
{
    let mut pieces = pieces;
    if pieces.len() != 1 {
        return Filter::Chain(pieces);
    }
    match pieces.pop() {
        Some(piece) => piece,
        None => Filter::Chain(pieces),
    }
}

// The member of these pieces and with this target.
pub fn made(target: Option<Path>, pieces: Vec<Filter>) -> Result<Filter, AllocError>
    ensures { IfOk result (λ f. shape f ≡ made target (shapes pieces.items)) }
{
    let mut pieces = pieces;
    match target {
        None => Ok(linked(pieces)),
        Some(path) => {
            pieces.push(Filter::Prefix(path))?;
            Ok(linked(pieces))
        }
    }
}

// What an exclude of these members holds.
fn inside(members: Vec<Filter>) -> Filter
    ensures { shape result ≡ inside (shapes members.items) }
{
    let mut members = members;
    if members.len() != 1 {
        return Filter::Join(members);
    }
    match members.pop() {
        Some(member) => member,
        None => Filter::Join(members),
    }
}

// The piece of a bracket with these members.
#[tactic(auto, using(crate::proofs::RowLists::row_join))]
pub fn enclosed(alloc: Global, bracket: Bracket, members: Vec<Filter>) -> Result<Filter, AllocError>
    ensures { IfOk result (λ f. shape f ≡ enclosed bracket (shapes members.items)) }
{
    match bracket {
        Bracket::Exclude => Ok(Filter::Exclude(Box::new(alloc, inside(members))?)),
        Bracket::Join => Ok(Filter::Join(members)),
    }
}

// The frame with one member more, and without a target.
pub fn with_member(frame: Frame, chain: Vec<Filter>) -> Result<Frame, AllocError>
    ensures { IfOk result (λ f. HasMember frame (shapes chain.items) f) }
{
    let Frame {
        bracket,
        before,
        members,
        target,
    } = frame;
    let mut members = members;
    members.push(made(target, chain)?)?;
    Ok(Frame {
        bracket,
        before,
        members,
        target: None,
    })
}

// A piece without brackets behind its word, and what follows it.
pub fn leaf<'a>(
    alloc: Global,
    word: Word,
    text: &'a [u8],
) -> Result<Option<(Filter, &'a [u8])>, AllocError>
    ensures { IfOk result (λ read. filter_read read ≡ leaf_of word text.now) }
{
    match word {
        Word::Nop => Ok(Some((Filter::Nop, text))),
        Word::Sub => match name_at(alloc, text)? {
            None => Ok(None),
            Some((path, rest)) => Ok(Some((Filter::Sub(path), rest))),
        },
        Word::Prefix => match name_at(alloc, text)? {
            None => Ok(None),
            Some((path, rest)) => Ok(Some((Filter::Prefix(path), rest))),
        },
        Word::Kept => match kept_name_at(alloc, text)? {
            None => Ok(None),
            Some((path, rest)) => Ok(Some(kept(path, rest))),
        },
        Word::Workspace => match name_at(alloc, text)? {
            None => Ok(None),
            Some((path, rest)) => Ok(Some((Filter::Workspace(path), rest))),
        },
        Word::Exclude => Ok(None),
        Word::Join => Ok(None),
    }
}

// A directory where a slash stands directly behind its path, else a file.
fn kept<'a>(path: Path, text: &'a [u8]) -> (Filter, &'a [u8])
    ensures { (shape result.0, result.1.now) ≡ kept (path, text.now) }
{
    if begins(b'/', text) {
        (Filter::Dir(path), past_first(text))
    } else {
        (Filter::File(path), text)
    }
}
