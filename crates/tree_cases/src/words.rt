// What a word asks of a stage.

/// What an edit does.
#[derive(Drop)]
pub enum Deed {
    /// `+PATH`
    Set,
    /// `-PATH`
    Remove,
    /// `PATH>PATH`
    Rename,
    /// `PATH*PATH`
    Copy,
    /// `PATH=PATH`: what the stored tree has at the first, put at the second by its name
    Put,
    /// `clear`
    Clear,
}

/// An edit and the texts of its paths. One that has a path alone gives it twice, and `clear` itself.
pub fn edit_of(word: &str) -> Option<(Deed, &str, &str)> {
    if word == "clear" {
        return Some((Deed::Clear, word, word));
    }
    if let Some(path) = word.strip_prefix('+') {
        return Some((Deed::Set, path, path));
    }
    if let Some(path) = word.strip_prefix('-') {
        return Some((Deed::Remove, path, path));
    }
    edit_of_paths(word)
}

// An edit of two paths.
fn edit_of_paths(word: &str) -> Option<(Deed, &str, &str)> {
    if let Some((from, to)) = word.split_once('>') {
        return Some((Deed::Rename, from, to));
    }
    if let Some((from, to)) = word.split_once('*') {
        return Some((Deed::Copy, from, to));
    }
    if let Some((from, to)) = word.split_once('=') {
        return Some((Deed::Put, from, to));
    }
    None
}
