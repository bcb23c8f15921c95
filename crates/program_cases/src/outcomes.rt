// Outcomes, their numbers and their texts.
use case_lines::{Fault, Texts, Word, name_of, number_of, path_of, printed};
use git_objects::Name;
use proj_cli::{Outcome, outcome_code, outcome_text};
use std::alloc::Global;

/// The number and the text of an outcome.
pub fn outcome(alloc: Global, texts: &Texts, words: &[Word]) -> Result<String, Fault> {
    let outcome = outcome_of(alloc, texts, words)?;
    told(alloc, &outcome)
}

fn told(alloc: Global, outcome: &Outcome) -> Result<String, Fault> {
    let number = outcome_code(outcome);
    let text = outcome_text(alloc, outcome)?;
    let text = printed(alloc, &text)?;
    Ok(format!(in alloc; "{number}\n{text}")?)
}

fn outcome_of(alloc: Global, texts: &Texts, words: &[Word]) -> Result<Outcome, Fault> {
    match words {
        [name] => plain_outcome(name.text()),
        [name, value] => outcome_of_one(texts, name.text(), value),
        [name, first, second] => outcome_of_two(texts, name.text(), first, second),
        [name, n, path, by] if name.text() == "blocked" => blocked(alloc, texts, n, path, by),
        _ => Err(Fault::BadLine),
    }
}

// The outcomes that tell nothing more.
fn plain_outcome(name: &str) -> Result<Outcome, Fault> {
    match name {
        "done" => Ok(Outcome::Done),
        "out-of-memory" => Ok(Outcome::OutOfMemory),
        "usage" => Ok(Outcome::Usage),
        "unknown-ref" => Ok(Outcome::UnknownRef),
        "read-fault" => Ok(Outcome::ReadFault),
        "write-fault" => Ok(Outcome::WriteFault),
        "store-fault" => Ok(Outcome::StoreFault),
        _ => Err(Fault::BadLine),
    }
}

fn small_number(word: &Word) -> Result<u32, Fault> {
    let number = u32::try_from(number_of(&word.bytes)?);
    number.ok().ok_or(Fault::BadLine)
}

// A name, or none.
fn name_or_none(texts: &Texts, word: &Word) -> Result<Option<Name>, Fault> {
    if word.text() == "none" {
        return Ok(None);
    }
    Ok(Some(name_of(texts, word)?))
}

// The outcomes that tell one value.
fn outcome_of_one(texts: &Texts, name: &str, value: &Word) -> Result<Outcome, Fault> {
    match name {
        "other-ref" => Ok(Outcome::OtherRef {
            at: number_of(&value.bytes)?,
        }),
        "no-change" => Ok(Outcome::NoChange {
            n: small_number(value)?,
        }),
        "collision" => Ok(Outcome::Collision {
            name: name_of(texts, value)?,
        }),
        _ => Err(Fault::BadLine),
    }
}

// The outcomes that tell two values.
fn outcome_of_two(
    texts: &Texts,
    name: &str,
    first: &Word,
    second: &Word,
) -> Result<Outcome, Fault> {
    match name {
        "not-at-head" => Ok(Outcome::NotAtHead {
            expected: name_or_none(texts, first)?,
            got: name_or_none(texts, second)?,
        }),
        "damaged" => Ok(Outcome::Damaged {
            item: small_number(first)?,
            at: number_of(&second.bytes)?,
        }),
        _ => Err(Fault::BadLine),
    }
}

fn blocked(
    alloc: Global,
    texts: &Texts,
    n: &Word,
    path: &Word,
    by: &Word,
) -> Result<Outcome, Fault> {
    let n = small_number(n)?;
    let path = path_of(alloc, texts, path)?;
    let by = path_of(alloc, texts, by)?;
    Ok(Outcome::Blocked { n, path, by })
}
