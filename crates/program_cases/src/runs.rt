// Calls of the program.
ghost use Rattle.std.specs.Prelude.{◌<◌};

use crate::keepers::Misjudging;
use crate::session::{FailingCalls, Session};
use case_lines::{Fault, Texts, Word, items_said, number_of, printed, reopened};
use proj_cli::{Outcome, outcome_code, run};
use proj_io::{Keeper, MemKeeper, MemSink, MemSource};
use std::alloc::Global;
use std::mem;

/// Calls the program with the words in front of `<`, and what is spelled behind it as the input, and says how the call
/// ended, what it wrote, and the items then.
pub fn run_words(
    alloc: Global,
    texts: &Texts,
    session: &mut Session,
    words: &[Word],
) -> Result<String, Fault> {
    let (front, pieces) = parted(words);
    let words = strings(alloc, texts, front)?;
    let input = texts.spelled(pieces)?;
    let failing = mem::replace(&mut session.failing, FailingCalls::new(alloc));
    let mut keeper = reopened(alloc, &mut session.keeper);
    let said = called(
        alloc,
        &words,
        input,
        session.most.max(1),
        failing,
        &mut keeper,
    );
    session.keeper = keeper;
    with_items(alloc, texts, &session.keeper, said)
}

/// Calls the program without input on a store that says one size of all its items: the size, and then the words. Says
/// what `run_words` says.
pub fn run_judged(
    alloc: Global,
    texts: &Texts,
    session: &mut Session,
    words: &[Word],
) -> Result<String, Fault> {
    let [size, words @ ..] = words else {
        return Err(Fault::BadLine);
    };
    let size = u32::try_from(number_of(&size.bytes)?);
    let size = size.ok().ok_or(Fault::BadLine)?;
    let words = strings(alloc, texts, words)?;
    let mut keeper = Misjudging {
        inner: reopened(alloc, &mut session.keeper),
        size,
    };
    let said = called_plainly(alloc, &words, &mut keeper);
    session.keeper = keeper.inner;
    with_items(alloc, texts, &session.keeper, said)
}

// Adds the items of the store.
fn with_items(
    alloc: Global,
    texts: &Texts,
    keeper: &MemKeeper,
    said: Result<String, Fault>,
) -> Result<String, Fault> {
    let mut text = said?;
    let items = items_said(alloc, texts, keeper)?;
    text.push_str(items.as_str())?;
    Ok(text)
}

/// What a call of the program without input, of which only the store may fail, comes to, and what it writes.
pub fn called_plainly<K: Keeper>(
    alloc: Global,
    words: &[String],
    keeper: &mut K,
) -> Result<String, Fault>
    requires { K.is_open keeper.old }
{
    let failing = FailingCalls::new(alloc);
    called(alloc, words, Vec::new(alloc), 64, failing, keeper)
}

// What one call of the program comes to, and what it writes.
fn called<K: Keeper>(
    alloc: Global,
    words: &[String],
    input: Vec<u8>,
    most: usize,
    failing: FailingCalls,
    keeper: &mut K,
) -> Result<String, Fault>
    requires most { 0 < most }
    requires open { K.is_open keeper.old }
{
    let mut input = MemSource::new(input, most, failing.input);
    let mut out = MemSink::new(alloc, most, failing.out);
    let mut err = MemSink::new(alloc, most, failing.err);
    let outcome = run(alloc, words, &mut input, &mut out, &mut err, keeper);
    told(alloc, &outcome, out.bytes(), err.bytes())
}

fn told(alloc: Global, outcome: &Outcome, out: &[u8], err: &[u8]) -> Result<String, Fault> {
    let mut text = format!(in alloc; "{}\n", outcome_code(outcome))?;
    add_stream(alloc, &mut text, "out", out)?;
    add_stream(alloc, &mut text, "err", err)?;
    Ok(text)
}

/// The words of a call, and the pieces of its input.
pub fn parted(words: &[Word]) -> (&[Word], &[Word]) {
    let place = words
        .iter()
        .position(|word| !word.is_quoted && word.text() == "<");
    let at = place.unwrap_or(words.len());
    match words.split_at_checked(at) {
        Some((front, [_, pieces @ ..])) => (front, pieces),
        _ => (words, &[]),
    }
}

/// Words as the program gets them.
pub fn strings(alloc: Global, texts: &Texts, words: &[Word]) -> Result<Vec<String>, Fault> {
    let mut all = Vec::new(alloc);
    for word in words {
        let text = String::from_utf8(texts.word(word)?);
        all.push(text.ok().ok_or(Fault::BadLine)?)?;
    }
    Ok(all)
}

// Adds a line with what a stream got, if it got something.
fn add_stream(alloc: Global, text: &mut String, name: &str, bytes: &[u8]) -> Result<(), Fault> {
    if bytes.is_empty() {
        return Ok(());
    }
    let line = format!(in alloc; "{name} {}\n", printed(alloc, bytes)?)?;
    text.push_str(line.as_str())?;
    Ok(())
}
