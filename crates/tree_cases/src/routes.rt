// Filters of texts, their soundness, decision lists, and the ways of paths.
ghost use Rattle.std.specs.Prelude.{◌≡◌, ◌≤◌, true, IfOk};
ghost use Rattle.git_objects.specs.declared.limits.TheConstants.{FILTER_PIECES};
ghost use Rattle.filter_text.specs.Filters.{has_paths, pieces};
ghost use Rattle.filter_text.specs.Shapes.{shape};
ghost use Rattle.workspace.specs.Laws.{IsUsable};

use case_lines::{Fault, Texts, Word, add_path, count_of, path_of};
use filter_routes::{RouteFault, Table, check, is_sound, list_within};
use filter_text::{Filter, parse};
use filter_unapply::image_of;
use path_names::Path;
use std::alloc::{AllocError, Global};

// The filter of a text.
fn filter_of(alloc: Global, text: &[u8]) -> Result<Filter, Fault>
    ensures pieces { IfOk result (λ f. pieces (shape f) ≤ FILTER_PIECES) }
    ensures paths { IfOk result (λ f. has_paths (shape f) ≡ true) }
{
    match parse(alloc, text) {
        Ok(filter) => Ok(filter),
        Err(_) => Err(Fault::BadLine),
    }
}

/// The sound filter that a word spells.
pub fn sound_filter(alloc: Global, texts: &Texts, word: &Word) -> Result<Filter, Fault>
    ensures { IfOk result (λ f. IsUsable (shape f)) }
{
    let filter = filter_of(alloc, &texts.word(word)?)?;
    if is_sound(alloc, &filter)? {
        Ok(filter)
    } else {
        Err(Fault::BadLine)
    }
}

fn add_verdict(out: &mut String, answer: &Result<(), RouteFault>) -> Result<(), AllocError> {
    match answer {
        Ok(()) => out.push_str("sound"),
        Err(RouteFault::NotKeeping { piece }) => write!(out, "piece {piece} is not keeping"),
        Err(
            RouteFault::Overlap {
                list,
                first,
                second,
            },
        ) => write!(out, "branches {first} and {second} of list {list} overlap"),
        Err(RouteFault::OutOfMemory) => out.push_str("want of memory"),
    }
}

/// Adds what a check says of the filter of a text: that it is sound, or its fault.
pub fn add_soundness(out: &mut String, text: &[u8]) -> Result<(), Fault> {
    let alloc = *out.allocator();
    let filter = filter_of(alloc, text)?;
    add_verdict(out, &check(alloc, &filter)).map_err(Fault::from)
}

/// Adds how many entries the decision list of a filter has, or `none` where it has more than the number in front.
pub fn add_listed(out: &mut String, texts: &Texts, words: &[Word]) -> Result<(), Fault> {
    match words {
        [most, pieces @ ..] => add_length(out, count_of(most)?, &texts.spelled(pieces)?),
        [] => Err(Fault::BadLine),
    }
}

fn add_length(out: &mut String, most: usize, text: &[u8]) -> Result<(), Fault> {
    let alloc = *out.allocator();
    let filter = filter_of(alloc, text)?;
    match &list_within(alloc, most, &filter) {
        Err(_) => out.push_str("none").map_err(Fault::from),
        Ok(list) => write!(out, "{} entries", list.len()).map_err(Fault::from),
    }
}

// The table of a sound filter.
fn table_of(alloc: Global, text: &[u8]) -> Result<Table, Fault> {
    let filter = filter_of(alloc, text)?;
    match Table::compile(alloc, &filter) {
        Ok(table) => Ok(table),
        Err(_) => Err(Fault::BadLine),
    }
}

/// Adds the image of a path under a sound filter, or the path with that image.
pub fn add_way(out: &mut String, texts: &Texts, form: &str, words: &[Word]) -> Result<(), Fault> {
    let [filter, path] = words else {
        return Err(Fault::BadLine);
    };
    let alloc = *out.allocator();
    let table = table_of(alloc, &texts.word(filter)?)?;
    let path = path_of(alloc, texts, path)?;
    match form {
        "image" => add_image(out, &table, &path).map_err(Fault::from),
        _ => add_origin(out, &table, &path),
    }
}

fn add_image(out: &mut String, table: &Table, path: &Path) -> Result<(), AllocError> {
    let Some(hit) = table.image(path) else {
        return out.push_str("none");
    };
    let image = image_of(*out.allocator(), table, path, &hit)?;
    add_path(out, &image)
}

fn add_origin(out: &mut String, table: &Table, image: &Path) -> Result<(), Fault> {
    let Some(hit) = table.origin(image) else {
        return out.push_str("none").map_err(Fault::from);
    };
    let rest = &image.components()[hit.cut..];
    let front = table.source(hit.route);
    if front.is_empty() && rest.is_empty() {
        return Err(Fault::BadLine);
    }
    let path = Path::of_parts(*out.allocator(), front, rest)?;
    add_path(out, &path).map_err(Fault::from)
}
