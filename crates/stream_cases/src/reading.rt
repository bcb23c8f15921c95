// Streams, whole and in pieces.
ghost use Rattle.std.specs.Prelude.{◌≡◌, ◌≢◌, ◌<◌, IfOk, Some, true, false};
ghost use Rattle.stream_cases.specs.Told.{what_follows};

use crate::commands::add_line;
use case_lines::Fault;
use fast_import::{Next, Reader, StreamFault};
use std::alloc::{AllocError, Global};

// Adds the line of what a reader told; that more must come has none.
fn add_answer(lines: &mut String, answer: &Result<Next, StreamFault>) -> Result<(), AllocError> {
    match answer {
        Ok(Next::Command(placed)) => add_line(lines, placed),
        Ok(Next::More) => Ok(()),
        Ok(Next::Ended) => lines.push_str("end\n"),
        Err(fault) => writeln!(lines, "{fault:?}"),
    }
}

// Behind a command the next one follows; else it is said whether more must come.
fn follower(answer: &Result<Next, StreamFault>) -> Option<bool>
    ensures { result ≡ what_follows answer.now }
{
    match answer {
        Ok(Next::Command(_)) => None,
        Ok(Next::More) => Some(true),
        Ok(Next::Ended) => Some(false),
        Err(_) => Some(false),
    }
}

// Adds the line of what a reader told, and says what follows.
fn add_followed(
    lines: &mut String,
    answer: &Result<Next, StreamFault>,
) -> Result<Option<bool>, AllocError>
    ensures { IfOk result (λ follows. follows ≡ what_follows answer.now) }
{
    add_answer(lines, answer)?;
    Ok(follower(answer))
}

// Adds the line of what a reader tells next.
fn add_next(reader: &mut Reader, lines: &mut String) -> Result<Option<bool>, AllocError>
    ensures { IfOk result (λ told. told ≢ Some false → reader.new.ended ≡ reader.old.ended) }
{
    let answer = reader.next();
    add_followed(lines, &answer)
}

// What a reader tells, a line each, up to the end, a fault, or that more must come, which is true.
fn drained(reader: &mut Reader, lines: &mut String) -> Result<bool, AllocError>
    ensures { IfOk result (λ more. more ≡ true → reader.new.ended ≡ reader.old.ended) }
{
    'commands: for _ in 0..u64::MAX {
        if let Some(is_more) = add_next(reader, lines)? {
            return Ok(is_more);
        }
    }
    Ok(false)
}

// Asks again behind the end or a fault, before the end of the stream was told and after it: the same must come.
fn add_asked_again(lines: &mut String, reader: &mut Reader) -> Result<(), AllocError> {
    let last = last_line(lines)?;
    add_twice(lines, reader, last.as_str())?;
    reader.end();
    add_twice(lines, reader, last.as_str())
}

fn add_twice(lines: &mut String, reader: &mut Reader, last: &str) -> Result<(), AllocError> {
    add_again(lines, reader, last)?;
    add_again(lines, reader, last)
}

// Adds what a reader tells, where it is another than what it told last.
fn add_again(lines: &mut String, reader: &mut Reader, last: &str) -> Result<(), AllocError> {
    let mut again = String::new(*lines.allocator());
    drained(reader, &mut again)?;
    add_other(lines, "then ", again.as_str(), last)
}

// Adds a text behind a word, where it is another than what came before.
fn add_other(lines: &mut String, word: &str, text: &str, before: &str) -> Result<(), AllocError> {
    if text == before {
        return Ok(());
    }
    lines.push_str(word)?;
    lines.push_str(text)
}

fn last_line(lines: &String) -> Result<String, AllocError> {
    let alloc = *lines.allocator();
    let last = lines.as_str().lines().last().unwrap_or("");
    format!(in alloc; "{last}\n")
}

/// Whether a reader refuses the command `tag` or reads it.
#[derive(Clone, Copy)]
pub enum Tags {
    Refused,
    Read,
}

fn new_reader(alloc: Global, tags: Tags) -> Reader
    ensures { result.ended ≡ false }
{
    match tags {
        Tags::Refused => Reader::new(alloc),
        Tags::Read => Reader::tagged(alloc),
    }
}

// What is told of a text in pieces of at most so many bytes.
fn told_in_pieces(alloc: Global, text: &[u8], most: usize, tags: Tags) -> Result<String, AllocError>
    requires { 0 < most }
{
    let mut lines = String::new(alloc);
    add_told_in_pieces(&mut lines, text, most, tags)?;
    Ok(lines)
}

fn add_told_in_pieces(
    lines: &mut String,
    text: &[u8],
    most: usize,
    tags: Tags,
) -> Result<(), AllocError>
    requires { 0 < most }
{
    let mut reader = new_reader(*lines.allocator(), tags);
    if !has_ended(&mut reader, lines, text, most)? {
        reader.end();
        drained(&mut reader, lines)?;
    }
    add_asked_again(lines, &mut reader)
}

// Feeds a text in pieces. Whether the end or a fault came before more was wanted behind all of them.
fn has_ended(
    reader: &mut Reader,
    lines: &mut String,
    text: &[u8],
    most: usize,
) -> Result<bool, AllocError>
    requires most { 0 < most }
    requires open { reader.old.ended ≡ false }
{
    'pieces: for piece in text.chunks(most) {
        reader.feed(piece)?;
        if !drained(reader, lines)? {
            return Ok(true);
        }
    }
    Ok(false)
}

/// Adds what is told of a text that is fed whole, by 7 bytes, and byte by byte: once where it is the same. A text of
/// more than 10,000 bytes is fed by 1,000 bytes in place of byte by byte.
pub fn add_told(out: &mut String, text: &[u8], tags: Tags) -> Result<(), Fault> {
    let whole = told_in_pieces(*out.allocator(), text, usize::MAX, tags)?;
    add_with_pieces(out, text, tags, whole.as_str()).map_err(Fault::from)
}

fn add_with_pieces(
    out: &mut String,
    text: &[u8],
    tags: Tags,
    whole: &str,
) -> Result<(), AllocError> {
    out.push_str(whole)?;
    add_told_by(out, text, 7, tags, whole)?;
    add_told_by(
        out,
        text,
        if text.len() <= 10_000 { 1 } else { 1000 },
        tags,
        whole,
    )
}

// Adds what is told of a text in pieces of at most so many bytes, where it is another than what is told of the whole.
fn add_told_by(
    out: &mut String,
    text: &[u8],
    most: usize,
    tags: Tags,
    whole: &str,
) -> Result<(), AllocError>
    requires { 0 < most }
{
    let pieces = told_in_pieces(*out.allocator(), text, most, tags)?;
    add_other(out, "in pieces:\n", pieces.as_str(), whole)
}

/// Adds what is told of a text before the end is told, and then: `more` stands where more must come.
pub fn add_told_before_the_end(out: &mut String, text: &[u8]) -> Result<(), Fault> {
    let mut reader = Reader::new(*out.allocator());
    reader.feed(text)?;
    add_up_to_the_end(out, &mut reader).map_err(Fault::from)
}

fn add_up_to_the_end(out: &mut String, reader: &mut Reader) -> Result<(), AllocError> {
    if drained(reader, out)? {
        out.push_str("more\n")?;
        reader.end();
        drained(reader, out)?;
    }
    add_asked_again(out, reader)
}
