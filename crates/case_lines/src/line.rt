// Lines of cases, and how their answers are printed.
use crate::word::words_of;
use crate::{Answers, Fault, Texts, Word};
use std::alloc::{AllocError, Global};

/// Adds what is printed for a line: an empty line or a comment, `# ..`, as it is, and below any other line its answer.
pub fn add_line<S: Answers>(
    alloc: Global,
    session: &mut S,
    texts: &mut Texts,
    line: &str,
    out: &mut String,
) -> Result<(), Fault> {
    if line.is_empty() || line.starts_with('#') {
        return writeln!(out, "{line}").map_err(Fault::from);
    }
    add_answer(out, line, &answer_of(alloc, session, texts, line))
}

// The answer to a line: `text NAME PIECES` names a text, a line behind two spaces goes on with it, and any other line
// asks something.
fn answer_of<S: Answers>(
    alloc: Global,
    session: &mut S,
    texts: &mut Texts,
    line: &str,
) -> Result<Option<String>, Fault> {
    if let Some(inner) = line.strip_prefix("  ") {
        texts.add_line(inner.as_bytes())?;
        return Ok(None);
    }
    let words = words_of(alloc, line)?;
    if is_named(texts, &words)? {
        return Ok(None);
    }
    session.answer(alloc, texts, &words)
}

// Names a text where the words do so, which is true then.
fn is_named(texts: &mut Texts, words: &[Word]) -> Result<bool, Fault> {
    match words {
        [first, name, pieces @ ..] if first.text() == "text" => {
            let bytes = texts.spelled(pieces)?;
            texts.set(&name.bytes, bytes)?;
            Ok(true)
        }
        _ => Ok(false),
    }
}

// Adds what is printed of a line with this answer: nothing where nothing was asked, and `no case` for a line of no
// form.
fn add_answer(
    out: &mut String,
    line: &str,
    answer: &Result<Option<String>, Fault>,
) -> Result<(), Fault> {
    match answer {
        Ok(None) => Ok(()),
        Ok(Some(answer)) => add_transcript(out, line, answer.as_str()).map_err(Fault::from),
        Err(Fault::BadLine) => add_transcript(out, line, "no case").map_err(Fault::from),
        Err(fault) => Err(*fault),
    }
}

// Adds a line that asks, and below it the lines of its answer, each behind two spaces.
fn add_transcript(out: &mut String, line: &str, answer: &str) -> Result<(), AllocError> {
    writeln!(out, "{line}")?;
    for part in answer.lines() {
        writeln!(out, "  {part}")?;
    }
    Ok(())
}
