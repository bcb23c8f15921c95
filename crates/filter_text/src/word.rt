// The words that pieces begin with, and what stands first in a text.
ghost use Rattle.std.specs.Prelude.{◌≡◌, drop};
ghost use Rattle.filter_text.specs.Texts.{begins};
ghost use Rattle.filter_text.specs.Reading.{word_at};
ghost use Rattle.filter_text.specs.Views.{word_read};

use path_names::strip;

// The word of a piece, up to its path or its bracket.
#[derive(Clone, Copy, Debug, PartialEq, Eq)]
pub enum Word {
    Nop,
    Sub,
    Prefix,
    Kept,
    Exclude,
    Join,
    Workspace,
}

// Whether the byte stands first.
pub fn begins(byte: u8, text: &[u8]) -> bool
    ensures { result ≡ begins byte text.now }
{
    match text.first() {
        Some(first) => *first == byte,
        None => false,
    }
}

// What follows the first byte.
pub fn past_first(text: &[u8]) -> &[u8]
    ensures { result.now ≡ drop 1 text.now }
{
    if text.is_empty() {
        return text;
    }
    &text[1..]
}

// The word that a piece begins with, and what follows it.
#[tactic(auto, unfolding(crate::specs::Reading::word_at))]
pub fn word_at(text: &[u8]) -> Option<(Word, &[u8])>
    ensures { word_read result ≡ word_at text.now }
{
    if let Some(rest) = strip(b":nop", text) {
        return Some((Word::Nop, rest));
    }
    if let Some(rest) = strip(b":/", text) {
        return Some((Word::Sub, rest));
    }
    if let Some(rest) = strip(b":prefix=", text) {
        return Some((Word::Prefix, rest));
    }
    if let Some(rest) = strip(b"::", text) {
        return Some((Word::Kept, rest));
    }
    if let Some(rest) = strip(b":exclude[", text) {
        return Some((Word::Exclude, rest));
    }
    if let Some(rest) = strip(b":[", text) {
        return Some((Word::Join, rest));
    }
    if let Some(rest) = strip(b":workspace=", text) {
        return Some((Word::Workspace, rest));
    }
    None
}
