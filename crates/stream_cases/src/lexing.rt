// Lines and blocks of a text.
ghost use Rattle.std.specs.Prelude.{◌≡◌, false};

use case_lines::{Fault, Texts, Word, add_printed};
use std::alloc::{AllocError, Global};
use stream_lex::{BlockAnswer, LexFault, Lexer, LineAnswer};

// Adds what a lexer tells, and nothing where more must come. `L` asks for a line, a digit for a block of so many bytes.
fn add_told(out: &mut String, lexer: &mut Lexer, ask: u8) -> Result<(), Fault> {
    match ask {
        b'L' => add_line(out, &lexer.line()).map_err(Fault::from),
        b'0'..=b'9' => add_block(out, &lexer.block(size_of(ask))).map_err(Fault::from),
        _ => Err(Fault::BadLine),
    }
}

fn size_of(digit: u8) -> u32 {
    u32::from(digit.saturating_sub(b'0'))
}

fn add_line(out: &mut String, answer: &Result<LineAnswer, LexFault>) -> Result<(), AllocError> {
    match answer {
        Ok(LineAnswer::Line { at, bytes }) => add_placed(out, *at, bytes.bytes()),
        Ok(LineAnswer::Ended { at }) => writeln!(out, "end at {at}"),
        Ok(LineAnswer::More) => Ok(()),
        Err(fault) => writeln!(out, "{fault:?}"),
    }
}

fn add_block(out: &mut String, answer: &Result<BlockAnswer, LexFault>) -> Result<(), AllocError> {
    match answer {
        Ok(BlockAnswer::Block(bytes)) => add_text(out, "block [", bytes.bytes()),
        Ok(BlockAnswer::Short) => out.push_str("short\n"),
        Ok(BlockAnswer::More) => Ok(()),
        Err(fault) => writeln!(out, "{fault:?}"),
    }
}

fn add_placed(out: &mut String, at: u64, bytes: &[u8]) -> Result<(), AllocError> {
    write!(out, "at {at} ")?;
    add_text(out, "[", bytes)
}

fn add_text(out: &mut String, front: &str, bytes: &[u8]) -> Result<(), AllocError> {
    out.push_str(front)?;
    add_printed(out, bytes)?;
    out.push_str("]\n")
}

// Feeds the next piece of at most so many bytes, or tells the end where nothing is left. What is left then is handed
// out.
fn feed_next<'a>(lexer: &mut Lexer, rest: &'a [u8], most: usize) -> Result<&'a [u8], AllocError>
    requires { lexer.old.ended ≡ false }
{
    if rest.is_empty() {
        lexer.end();
        return Ok(rest);
    }
    let (piece, others) = rest.split_at(most.min(rest.len()));
    lexer.feed(piece)?;
    Ok(others)
}

// Adds the answer to an ask, for which pieces are fed where what came before isn't enough. What is left of the text
// then is handed out.
fn add_answer<'a>(
    out: &mut String,
    lexer: &mut Lexer,
    text: &'a [u8],
    most: usize,
    ask: u8,
) -> Result<&'a [u8], Fault> {
    let before = out.len();
    let mut rest = text;
    for _ in 0..u64::MAX {
        add_told(out, lexer, ask)?;
        if out.len() != before {
            break;
        }
        if lexer.has_ended() {
            out.push_str("more behind the end\n")?;
            break;
        }
        rest = feed_next(lexer, rest, most)?;
    }
    Ok(rest)
}

// The answers to all asks, where a text is fed in pieces of at most so many bytes, each where the ones before aren't
// enough.
fn told_in_pieces(alloc: Global, text: &[u8], most: usize, asks: &[u8]) -> Result<String, Fault> {
    let mut out = String::new(alloc);
    add_answers(&mut out, &mut Lexer::new(alloc), text, most, asks)?;
    Ok(out)
}

fn add_answers(
    out: &mut String,
    lexer: &mut Lexer,
    text: &[u8],
    most: usize,
    asks: &[u8],
) -> Result<(), Fault> {
    let mut rest = text;
    for ask in asks {
        rest = add_answer(out, lexer, rest, most, *ask)?;
    }
    Ok(())
}

/// Adds the answers to asks of a text that is fed whole, by 7 bytes, and byte by byte: once where they are the same.
pub fn add_asked(out: &mut String, texts: &Texts, words: &[Word]) -> Result<(), Fault> {
    match words {
        [asks, pieces @ ..] => add_all(out, &texts.spelled(pieces)?, &asks.bytes),
        [] => Err(Fault::BadLine),
    }
}

fn add_all(out: &mut String, text: &[u8], asks: &[u8]) -> Result<(), Fault> {
    let whole = told_in_pieces(*out.allocator(), text, usize::MAX, asks)?;
    out.push_str(whole.as_str())?;
    add_other(out, text, 7, asks, whole.as_str())?;
    add_other(out, text, 1, asks, whole.as_str())
}

// Adds the answers of a text in pieces of at most so many bytes, where they are others than those of the whole.
fn add_other(
    out: &mut String,
    text: &[u8],
    most: usize,
    asks: &[u8],
    whole: &str,
) -> Result<(), Fault> {
    let pieces = told_in_pieces(*out.allocator(), text, most, asks)?;
    if pieces.as_str() == whole {
        return Ok(());
    }
    out.push_str("in pieces:\n")?;
    out.push_str(pieces.as_str()).map_err(Fault::from)
}
