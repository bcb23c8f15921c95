// Values that words stand for.
use case_lines::{Fault, Word, digits_of};
use git_objects::{Kind, Mode, Name};
use std::alloc::Global;

pub fn kind_of(word: &Word) -> Result<Kind, Fault> {
    match word.text() {
        "blob" => Ok(Kind::Blob),
        "tree" => Ok(Kind::Tree),
        "commit" => Ok(Kind::Commit),
        _ => Err(Fault::BadLine),
    }
}

pub fn mode_of(word: &Word) -> Result<Mode, Fault> {
    match word.text() {
        "100644" => Ok(Mode::File),
        "100755" => Ok(Mode::Exec),
        "120000" => Ok(Mode::Link),
        "160000" => Ok(Mode::Module),
        "40000" => Ok(Mode::Dir),
        _ => Err(Fault::BadLine),
    }
}

/// A word and the digits of a name.
pub fn word_and_digits(alloc: Global, word: &str, name: &Name) -> Result<String, Fault> {
    let digits = digits_of(alloc, name)?;
    Ok(format!(in alloc; "{word} {digits}")?)
}
