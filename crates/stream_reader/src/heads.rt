// Blobs, the heads of commits, and resets.
ghost use Rattle.std.specs.Prelude.{◌≡◌, ◌≤◌, ◌<◌, [], codes, IfOk};
ghost use Rattle.git_objects.specs.declared.limits.TheConstants.{STREAM_BYTES};
ghost use Rattle.stream_lex.specs.Views.{input, line, maybe_bytes, maybe_line};
ghost use Rattle.stream_reader.specs.Heads.{if_some, said, mark_in, mark_lines, blob, author_in, author_or};
ghost use Rattle.stream_reader.specs.Heads.{committer_of, people, ref_in, ref_line, merges};
ghost use Rattle.stream_reader.specs.Heads.{merges_max, parents, head, reset};
ghost use Rattle.stream_reader.specs.Heads.{behind_word, must_say, tag, tagger_in};
ghost use Rattle.stream_reader.specs.Views.{Tells, same, with_rest, people_read, parents_read};

use crate::blocks::{blob_data, message_data, tag_data};
use crate::halt::Halt;
use crate::lines::{need_line, option_line};
use crate::names::{ident, refname, tag_name, target};
use crate::words::mark;
use crate::{Command, CommitHead, CommitRef, Merges, StreamFault, TagHead};
use git_objects::limits::PARENTS;
use git_objects::{Bytes, Ident, Quantity};
use path_names::strip;
use std::alloc::{AllocError, Global};
use stream_lex::{Cursor, LineView};

fn mark_of<'a>(l: Option<LineView<'a>>) -> Result<Option<u64>, Halt>
    ensures { Tells same result (if_some mark_in (maybe_line l.entry)) }
{
    let Some(l) = l else {
        return Ok(None);
    };
    match mark(l.bytes) {
        None => Err(Halt::Fault(StreamFault::Syntax { at: l.at })),
        Some(n) => Ok(Some(n)),
    }
}

// The lines `mark :N` and `original-oid TEXT`, each of which may be missing.
#[tactic(auto, unfolding(crate::specs::Heads::mark_lines))]
fn mark_lines<'a>(ended: bool, i: Cursor<'a>) -> Result<(Option<u64>, Cursor<'a>), Halt>
    requires { i.at ≤ STREAM_BYTES }
    ensures told { Tells with_rest result (mark_lines ended (input i.entry)) }
    ensures within { IfOk result (λ x. x.1.at ≤ STREAM_BYTES) }
{
    let (l, after) = option_line(b"mark ", ended, i)?;
    let mark = mark_of(l)?;
    let (_, after) = option_line(b"original-oid ", ended, after)?;
    Ok((mark, after))
}

// What stands behind the line `blob`.
#[tactic(auto, unfolding(crate::specs::Heads::blob))]
pub fn blob<'a>(alloc: Global, ended: bool, i: Cursor<'a>) -> Result<(Command, Cursor<'a>), Halt>
    requires { i.at ≤ STREAM_BYTES }
    ensures told { Tells with_rest result (blob ended (input i.entry)) }
    ensures within { IfOk result (λ x. x.1.at ≤ STREAM_BYTES) }
{
    let (mark, after) = mark_lines(ended, i)?;
    let (bytes, after) = blob_data(ended, after)?;
    let content = Bytes::of(bytes.to_vec(alloc)?);
    Ok((Command::Blob { mark, content }, after))
}

fn author_of<'a>(alloc: Global, l: Option<LineView<'a>>) -> Result<Option<Ident>, Halt>
    ensures { Tells same result (if_some author_in (maybe_line l.entry)) }
{
    let Some(l) = l else {
        return Ok(None);
    };
    let author = ident(alloc, l.at, l.bytes)?;
    Ok(Some(author))
}

// The committer where there is no author.
fn author_or(alloc: Global, committer: &Ident, author: Option<Ident>) -> Result<Ident, AllocError>
    ensures { IfOk result (λ a. a ≡ author_or committer.now author) }
{
    match author {
        Some(author) => Ok(author),
        None => committer.copy(alloc),
    }
}

fn committer_of<'a>(alloc: Global, l: LineView<'a>) -> Result<Ident, Halt>
    ensures { Tells same result (committer_of (line l.entry)) }
{
    let Some(text) = strip(b"committer ", l.bytes) else {
        return Err(Halt::Fault(StreamFault::Syntax { at: l.at }));
    };
    ident(alloc, l.at, text)
}

// The line `author IDENT`, which may be missing, and the line `committer IDENT`.
#[tactic(auto, unfolding(crate::specs::Heads::people))]
fn people<'a>(alloc: Global, ended: bool, i: Cursor<'a>) -> Result<(Ident, Ident, Cursor<'a>), Halt>
    requires { i.at ≤ STREAM_BYTES }
    ensures told { Tells people_read result (people ended (input i.entry)) }
    ensures within { IfOk result (λ x. x.2.at ≤ STREAM_BYTES) }
{
    let (l, after) = option_line(b"author ", ended, i)?;
    let author = author_of(alloc, l)?;
    let (l, after) = need_line(ended, after)?;
    let committer = committer_of(alloc, l)?;
    let author = author_or(alloc, &committer, author)?;
    Ok((author, committer, after))
}

fn ref_of<'a>(alloc: Global, l: Option<LineView<'a>>) -> Result<Option<CommitRef>, Halt>
    ensures { Tells same result (if_some ref_in (maybe_line l.entry)) }
{
    let Some(l) = l else {
        return Ok(None);
    };
    let target = target(alloc, l.at, l.bytes)?;
    Ok(Some(CommitRef { at: l.at, target }))
}

// A line of a word and a commit's name, which may be missing.
#[tactic(auto, unfolding(crate::specs::Heads::ref_line))]
fn ref_line<'a>(
    alloc: Global,
    word: &[u8],
    ended: bool,
    i: Cursor<'a>,
) -> Result<(Option<CommitRef>, Cursor<'a>), Halt>
    requires { i.at ≤ STREAM_BYTES }
    ensures told { Tells with_rest result (ref_line word.now ended (input i.entry)) }
    ensures within { IfOk result (λ x. x.1.at ≤ STREAM_BYTES) }
{
    let (l, after) = option_line(word, ended, i)?;
    let found = ref_of(alloc, l)?;
    Ok((found, after))
}

// Any number of lines `merge NAME`, but at most so many.
fn merges<'a>(
    alloc: Global,
    most: usize,
    ended: bool,
    i: Cursor<'a>,
) -> Result<(Merges, Cursor<'a>), Halt>
    requires { i.at ≤ STREAM_BYTES }
    ensures told { Tells with_rest result (merges most [] ended (input i.entry)) }
    ensures within { IfOk result (λ x. x.1.at ≤ STREAM_BYTES) }
{
    let mut refs = Vec::new(alloc);
    let mut left = most;
    let mut i = i;
    'merges: loop {
        match ref_line(alloc, b"merge ", ended, i) {
            Err(halt) => return Err(halt),
            Ok((found, after)) => {
                let Some(found) = found else {
                    return Ok((Merges::of(refs), after));
                };
                if left == 0 {
                    return Err(Halt::Fault(StreamFault::Limit {
                        at: found.at,
                        which: Quantity::Parents,
                    }));
                }
                let Ok(()) = refs.push(found) else {
                    return Err(Halt::Memory);
                };
                left -= 1;
                i = after;
            }
        }
    }
}

// How many merges a commit may have beside its first parent.
fn merges_max(from: &Option<CommitRef>) -> usize
    ensures { result ≡ merges_max from.now }
{
    match from {
        None => PARENTS,
        Some(_) => PARENTS - 1,
    }
}

// The line `from NAME`, which may be missing, and any number of lines `merge NAME`.
#[tactic(auto, unfolding(crate::specs::Heads::parents))]
fn parents<'a>(
    alloc: Global,
    ended: bool,
    i: Cursor<'a>,
) -> Result<(Option<CommitRef>, Merges, Cursor<'a>), Halt>
    requires { i.at ≤ STREAM_BYTES }
    ensures told { Tells parents_read result (parents ended (input i.entry)) }
    ensures within { IfOk result (λ x. x.2.at ≤ STREAM_BYTES) }
{
    let (from, after) = ref_line(alloc, b"from ", ended, i)?;
    let (merges, after) = merges(alloc, merges_max(&from), ended, after)?;
    Ok((from, merges, after))
}

// What stands behind the line `commit REF`, of which the text is this name; at is its place.
#[tactic(auto, unfolding(crate::specs::Heads::head))]
pub fn head<'a>(
    alloc: Global,
    at: u64,
    text: &[u8],
    ended: bool,
    i: Cursor<'a>,
) -> Result<(Command, Cursor<'a>), Halt>
    requires { i.at ≤ STREAM_BYTES }
    ensures told { Tells with_rest result (head at text.now ended (input i.entry)) }
    ensures within { IfOk result (λ x. x.1.at ≤ STREAM_BYTES) }
{
    let refname = refname(alloc, at, text)?;
    let (mark, after) = mark_lines(ended, i)?;
    let (author, committer, after) = people(alloc, ended, after)?;
    let (bytes, after) = message_data(ended, after)?;
    let message = Bytes::of(bytes.to_vec(alloc)?);
    let (from, merges, after) = parents(alloc, ended, after)?;
    let head = CommitHead {
        refname,
        mark,
        author,
        committer,
        message,
        from,
        merges,
    };
    Ok((Command::Commit(head), after))
}

// What stands behind the line `reset REF`, of which the text is this name; at is its place.
#[tactic(auto, unfolding(crate::specs::Heads::reset))]
pub fn reset<'a>(
    alloc: Global,
    at: u64,
    text: &[u8],
    ended: bool,
    i: Cursor<'a>,
) -> Result<(Command, Cursor<'a>), Halt>
    requires { i.at ≤ STREAM_BYTES }
    ensures told { Tells with_rest result (reset at text.now ended (input i.entry)) }
    ensures within { IfOk result (λ x. x.1.at ≤ STREAM_BYTES) }
{
    let refname = refname(alloc, at, text)?;
    let (from, after) = ref_line(alloc, b"from ", ended, i)?;
    Ok((Command::Reset { refname, from }, after))
}

// What stands behind a word, which must be there.
fn behind_word<'a>(word: &[u8], l: LineView<'a>) -> Result<LineView<'a>, Halt>
    ensures { Tells line result (behind_word word.now (line l.entry)) }
{
    let Some(bytes) = strip(word, l.bytes) else {
        return Err(Halt::Fault(StreamFault::Syntax { at: l.at }));
    };
    Ok(LineView { at: l.at, bytes })
}

fn from_of<'a>(alloc: Global, l: LineView<'a>) -> Result<CommitRef, Halt>
    ensures { Tells same result (ref_in (line l.entry)) }
{
    let target = target(alloc, l.at, l.bytes)?;
    Ok(CommitRef { at: l.at, target })
}

// The line `from NAME`.
fn tag_from<'a>(alloc: Global, ended: bool, i: Cursor<'a>) -> Result<(CommitRef, Cursor<'a>), Halt>
    requires { i.at ≤ STREAM_BYTES }
    ensures told { Tells with_rest result (must_say (codes "from ") ref_in ended (input i.entry)) }
    ensures within { IfOk result (λ x. x.1.at ≤ STREAM_BYTES) }
{
    let (l, after) = need_line(ended, i)?;
    let l = behind_word(b"from ", l)?;
    let from = from_of(alloc, l)?;
    Ok((from, after))
}

// The line `tagger IDENT`.
fn tagger<'a>(alloc: Global, ended: bool, i: Cursor<'a>) -> Result<(Ident, Cursor<'a>), Halt>
    requires { i.at ≤ STREAM_BYTES }
    ensures told { Tells with_rest result (must_say (codes "tagger ") tagger_in ended (input i.entry)) }
    ensures within { IfOk result (λ x. x.1.at ≤ STREAM_BYTES) }
{
    let (l, after) = need_line(ended, i)?;
    let l = behind_word(b"tagger ", l)?;
    let tagger = ident(alloc, l.at, l.bytes)?;
    Ok((tagger, after))
}

// The line `mark :N`, which may be missing.
fn tag_mark<'a>(ended: bool, i: Cursor<'a>) -> Result<(Option<u64>, Cursor<'a>), Halt>
    requires { i.at ≤ STREAM_BYTES }
    ensures told { Tells with_rest result (said (codes "mark ") mark_in ended (input i.entry)) }
    ensures within { IfOk result (λ x. x.1.at ≤ STREAM_BYTES) }
{
    let (l, after) = option_line(b"mark ", ended, i)?;
    let mark = mark_of(l)?;
    Ok((mark, after))
}

// What stands behind the line `tag NAME`, of which the text is this name; at is its place.
#[tactic(auto, unfolding(crate::specs::Heads::tag))]
pub fn tag<'a>(
    alloc: Global,
    at: u64,
    text: Option<&'a [u8]>,
    ended: bool,
    i: Cursor<'a>,
) -> Result<(Command, Cursor<'a>), Halt>
    requires { i.at ≤ STREAM_BYTES }
    ensures told { Tells with_rest result (tag at (maybe_bytes text.entry) ended (input i.entry)) }
    ensures within { IfOk result (λ x. x.1.at ≤ STREAM_BYTES) }
{
    let name = tag_name(alloc, at, text)?;
    let (mark, after) = tag_mark(ended, i)?;
    let (from, after) = tag_from(alloc, ended, after)?;
    let (_, after) = option_line(b"original-oid ", ended, after)?;
    let (tagger, after) = tagger(alloc, ended, after)?;
    let (bytes, after) = tag_data(ended, after)?;
    let message = Bytes::of(bytes.to_vec(alloc)?);
    let head = TagHead {
        name,
        from,
        mark,
        tagger,
        message,
    };
    Ok((Command::Tag(head), after))
}
