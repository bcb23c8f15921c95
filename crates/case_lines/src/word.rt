// The words of a line.
use crate::Fault;
use path_names::{QuoteFault, unquote};
use std::alloc::Global;

/// A word of a line. What stood between double quotes is only its bytes; what didn't may stand for other bytes.
#[derive(Drop)]
pub struct Word {
    pub bytes: Vec<u8>,
    pub is_quoted: bool,
}

impl Word {
    /// The word as text. Bytes that are no text are no name of anything, so they are the empty text.
    pub fn text(&self) -> &str {
        str::from_utf8(&self.bytes).unwrap_or("")
    }
}

/// The words of a line, which spaces part. One that begins with a double quote is read as git-fast-import(1) quotes
/// paths.
pub fn words_of(alloc: Global, line: &str) -> Result<Vec<Word>, Fault> {
    let mut words = Vec::new(alloc);
    let mut rest = line;
    for _ in 0..line.len() {
        rest = rest.trim_start_matches(' ');
        if rest.is_empty() {
            break;
        }
        rest = add_first(&mut words, rest)?;
    }
    Ok(words)
}

/// The number that decimal digits write.
pub fn number_of(digits: &[u8]) -> Result<u64, Fault> {
    let text = str::from_utf8(digits).ok().ok_or(Fault::BadLine)?;
    text.parse::<u64>().ok().ok_or(Fault::BadLine)
}

/// The count that a word's decimal digits write.
pub fn count_of(word: &Word) -> Result<usize, Fault> {
    word.text().parse::<usize>().ok().ok_or(Fault::BadLine)
}

// Adds the word that the text begins with. What follows it is handed out.
fn add_first<'a>(words: &mut Vec<Word>, text: &'a str) -> Result<&'a str, Fault> {
    if text.starts_with('"') {
        return add_quoted(words, text);
    }
    let (word, behind) = text.split_once(' ').unwrap_or((text, ""));
    add_word(words, word.as_bytes(), false)?;
    Ok(behind)
}

fn add_quoted<'a>(words: &mut Vec<Word>, text: &'a str) -> Result<&'a str, Fault> {
    let used = add_unquoted(words, text.as_bytes())?;
    text.get(used..).ok_or(Fault::BadLine)
}

// How long the text between quotes is, with them, is handed out.
fn add_unquoted(words: &mut Vec<Word>, text: &[u8]) -> Result<usize, Fault> {
    match &unquote(*words.allocator(), text) {
        Ok(inner) => {
            add_word(words, inner.bytes.bytes(), true)?;
            Ok(inner.used)
        }
        Err(QuoteFault::Bad) => Err(Fault::BadLine),
        Err(QuoteFault::OutOfMemory) => Err(Fault::OutOfMemory),
    }
}

fn add_word(words: &mut Vec<Word>, text: &[u8], is_quoted: bool) -> Result<(), Fault> {
    let bytes = text.to_vec(*words.allocator())?;
    Ok(words.push(Word { bytes, is_quoted })?)
}
