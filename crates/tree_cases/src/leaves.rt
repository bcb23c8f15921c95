// Trees of leaves that a line names, and trees as they are printed.
ghost use Rattle.std.specs.Prelude.{◌≡◌, ◌<◌, true, length, IfOk};
ghost use Rattle.git_objects.specs.declared.kind.Kind.TheVariants.{Tree};
ghost use Rattle.object_store.specs.Objects.{has};

use case_lines::{Fault, Texts, Word, add_digits, add_path, path_of, put_object};
use filter_routes::Table;
use filter_unapply::image_of;
use git_objects::{Kind, Mode, Name};
use object_store::Store;
use path_names::Path;
use path_trees::{Found, Walk, put_at};
use std::alloc::{AllocError, Global};

fn mode_of(word: &Word) -> Result<Mode, Fault> {
    match word.text() {
        "file" => Ok(Mode::File),
        "exec" => Ok(Mode::Exec),
        "link" => Ok(Mode::Link),
        "module" => Ok(Mode::Module),
        _ => Err(Fault::BadLine),
    }
}

fn mode_word(mode: Mode) -> &'static str {
    match mode {
        Mode::File => "file ",
        Mode::Exec => "exec ",
        Mode::Link => "link ",
        Mode::Module => "module ",
        Mode::Dir => "directory ",
    }
}

// Puts a leaf with the blob of that name into a tree.
fn with_leaf(
    alloc: Global,
    store: &mut Store,
    root: Name,
    path: &Path,
    found: Found,
) -> Result<Name, Fault> {
    if !store.has(Kind::Tree, &root) || !store.has(Kind::Blob, &found.name) {
        return Err(Fault::BadLine);
    }
    if found.mode.is_dir() {
        return Err(Fault::BadLine);
    }
    let put = put_at(alloc, store, root, path, found);
    put.ok().ok_or(Fault::BadLine)
}

// Puts the leaf of three words, mode, path and text, into a tree.
fn grown(
    alloc: Global,
    texts: &Texts,
    store: &mut Store,
    root: Name,
    words: &[Word],
) -> Result<Name, Fault> {
    let [mode, path, text] = words else {
        return Err(Fault::BadLine);
    };
    let mode = mode_of(mode)?;
    let name = put_object(store, Kind::Blob, &texts.word(text)?)?;
    with_leaf(
        alloc,
        store,
        root,
        &path_of(alloc, texts, path)?,
        Found { mode, name },
    )
}

/// The tree of leaves of three words each: mode, path and text.
pub fn tree(alloc: Global, texts: &Texts, store: &mut Store, words: &[Word]) -> Result<Name, Fault>
    ensures { IfOk result (λ n. has Tree store.new n.0 ≡ true) }
{
    let mut root = put_object(store, Kind::Tree, b"")?;
    for leaf in words.chunks(3) {
        root = grown(alloc, texts, store, root, leaf)?;
    }
    if store.has(Kind::Tree, &root) {
        Ok(root)
    } else {
        Err(Fault::BadLine)
    }
}

/// The words before a word, and those behind it.
pub fn parted<'a>(words: &'a [Word], mark: &str) -> Option<(&'a [Word], &'a [Word])> {
    let at = words.iter().position(|word| word.text() == mark)?;
    match words.split_at_checked(at) {
        Some((front, [_, behind @ ..])) => Some((front, behind)),
        _ => None,
    }
}

/// The trees of the leaves before a word and of those behind it.
pub fn two_trees(
    alloc: Global,
    texts: &Texts,
    store: &mut Store,
    words: &[Word],
    mark: &str,
) -> Result<(Name, Name), Fault>
    ensures first { IfOk result (λ names. has Tree store.new names.0.0 ≡ true) }
    ensures second { IfOk result (λ names. has Tree store.new names.1.0 ≡ true) }
{
    let Some((front, behind)) = parted(words, mark) else {
        return Err(Fault::BadLine);
    };
    let first = tree(alloc, texts, store, front)?;
    let second = tree(alloc, texts, store, behind)?;
    if store.has(Kind::Tree, &first) && store.has(Kind::Tree, &second) {
        Ok((first, second))
    } else {
        Err(Fault::BadLine)
    }
}

/// Adds a path, and another one behind words.
pub fn add_both(
    out: &mut String,
    path: &Path,
    words: &str,
    other: &Path,
) -> Result<(), AllocError> {
    add_path(out, path)?;
    out.push_str(words)?;
    add_path(out, other)
}

// Adds the line of a leaf: its mode and its path, or, where a table is given, its path and its image, if it has one.
fn add_leaf(
    out: &mut String,
    table: Option<&Table>,
    mode: Mode,
    path: &Path,
) -> Result<(), AllocError> {
    match table {
        None => add_mode(out, mode, path),
        Some(table) => add_image(out, table, path),
    }
}

fn add_mode(out: &mut String, mode: Mode, path: &Path) -> Result<(), AllocError> {
    out.push_str(mode_word(mode))?;
    add_path(out, path)?;
    out.push('\n')
}

fn add_image(out: &mut String, table: &Table, path: &Path) -> Result<(), AllocError> {
    let Some(hit) = table.image(path) else {
        return Ok(());
    };
    let image = image_of(*out.allocator(), table, path, &hit)?;
    add_both(out, path, " as ", &image)?;
    out.push('\n')
}

// Adds the line of the walk's next leaf. False: there is none.
fn add_next(
    out: &mut String,
    table: Option<&Table>,
    walk: &mut Walk<'_>,
) -> Result<bool, AllocError>
    ensures { IfOk result (λ more. more ≡ true → length walk.new.left < length walk.old.left) }
{
    if !walk.next()? {
        return Ok(false);
    }
    add_leaf(out, table, walk.leaf().mode, walk.path())?;
    Ok(true)
}

/// Adds a line for each leaf of a tree, or, where a table is given, for each that has an image.
pub fn add_leaves(
    out: &mut String,
    table: Option<&Table>,
    store: &Store,
    root: Name,
) -> Result<(), Fault> {
    if !store.has(Kind::Tree, &root) {
        return Err(Fault::BadLine);
    }
    let mut walk = Walk::new(*out.allocator(), store, root)?;
    while add_next(out, table, &mut walk)? {}
    Ok(())
}

/// Adds the name of a tree, and its leaves.
pub fn add_tree(out: &mut String, store: &Store, root: Name) -> Result<(), Fault> {
    add_digits(out, &root)?;
    out.push('\n')?;
    add_leaves(out, None, store, root)
}
