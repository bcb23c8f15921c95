// Lines by their first word.
ghost use Rattle.std.specs.Prelude.{◌≡◌};
ghost use Rattle.stream_reader.specs.Changes.{is_notes, change_line};
ghost use Rattle.stream_reader.specs.Commands.{feature_by, refused_line, command_line};
ghost use Rattle.stream_reader.specs.Views.{change_kind, command_kind};
ghost use Rattle.stream_reader.specs.Words.{first_word};

use crate::Feature;
use crate::words::first_word;
use path_names::strip;

/// What a line between commands is. A text is what stands behind its word and a space.
#[derive(Clone, Copy)]
pub enum CommandKind<'a> {
    Empty,
    Blob,
    Commit(&'a [u8]),
    Reset(&'a [u8]),
    /// The text is missing where the line ends behind the word.
    Tag(Option<&'a [u8]>),
    /// `progress` and `checkpoint`, which change nothing.
    Idle,
    WantsDone,
    Done,
    Refused(Feature),
    Other,
}

/// What a line behind a commit's head is.
#[derive(Clone, Copy)]
pub enum ChangeKind<'a> {
    Modify(&'a [u8]),
    Delete(&'a [u8]),
    Rename(&'a [u8]),
    Copy(&'a [u8]),
    DeleteAll,
    Notes,
    Empty,
    Other,
}

// A feature by the first word of its lines.
fn feature_by(word: &[u8]) -> Option<Feature>
    ensures { result ≡ feature_by word.now }
{
    if word == b"option".as_slice() {
        return Some(Feature::Options);
    }
    if word == b"alias".as_slice() {
        return Some(Feature::Alias);
    }
    if word == b"ls".as_slice() {
        return Some(Feature::Ls);
    }
    if word == b"cat-blob".as_slice() {
        return Some(Feature::CatBlob);
    }
    if word == b"get-mark".as_slice() {
        return Some(Feature::GetMark);
    }
    if word == b"N".as_slice() {
        return Some(Feature::Notes);
    }
    None
}

// A line that is no command.
fn refused_kind<'a>(line: &'a [u8]) -> CommandKind<'a>
    ensures { command_kind result ≡ refused_line (feature_by (first_word line.now).0) }
{
    let (word, _) = first_word(line);
    match feature_by(word) {
        None => CommandKind::Other,
        Some(feature) => CommandKind::Refused(feature),
    }
}

// What a line between commands is.
#[tactic(auto, unfolding(crate::specs::Commands::command_line))]
pub fn command_kind<'a>(line: &'a [u8]) -> CommandKind<'a>
    ensures { command_kind result ≡ command_line line.now }
{
    if line == b"".as_slice() {
        return CommandKind::Empty;
    }
    if line == b"blob".as_slice() {
        return CommandKind::Blob;
    }
    if let Some(text) = strip(b"commit ".as_slice(), line) {
        return CommandKind::Commit(text);
    }
    if let Some(text) = strip(b"reset ".as_slice(), line) {
        return CommandKind::Reset(text);
    }
    if let Some(_) = strip(b"progress ".as_slice(), line) {
        return CommandKind::Idle;
    }
    if line == b"checkpoint".as_slice() {
        return CommandKind::Idle;
    }
    if line == b"feature done".as_slice() {
        return CommandKind::WantsDone;
    }
    if let Some(_) = strip(b"feature ".as_slice(), line) {
        return CommandKind::Refused(Feature::FeatureLine);
    }
    if line == b"done".as_slice() {
        return CommandKind::Done;
    }
    if let Some(text) = strip(b"tag ".as_slice(), line) {
        return CommandKind::Tag(Some(text));
    }
    if line == b"tag".as_slice() {
        return CommandKind::Tag(None);
    }
    refused_kind(line)
}

fn is_notes(line: &[u8]) -> bool
    ensures { result ≡ is_notes line.now }
{
    let (word, _) = first_word(line);
    word == b"N".as_slice()
}

// What a line behind a commit's head is.
#[tactic(auto, unfolding(crate::specs::Changes::change_line))]
pub fn change_kind<'a>(line: &'a [u8]) -> ChangeKind<'a>
    ensures { change_kind result ≡ change_line line.now }
{
    if let Some(text) = strip(b"M ".as_slice(), line) {
        return ChangeKind::Modify(text);
    }
    if let Some(text) = strip(b"D ".as_slice(), line) {
        return ChangeKind::Delete(text);
    }
    if let Some(text) = strip(b"R ".as_slice(), line) {
        return ChangeKind::Rename(text);
    }
    if let Some(text) = strip(b"C ".as_slice(), line) {
        return ChangeKind::Copy(text);
    }
    if line == b"deleteall".as_slice() {
        return ChangeKind::DeleteAll;
    }
    if is_notes(line) {
        return ChangeKind::Notes;
    }
    if line.is_empty() {
        return ChangeKind::Empty;
    }
    ChangeKind::Other
}
