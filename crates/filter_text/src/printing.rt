// Writing filters.
ghost use Rattle.std.specs.Prelude.{◌≡◌, ◌++◌, IfOk, OnOk};
ghost use Rattle.std.specs.List.{list_any};
ghost use Rattle.filter_text.specs.Texts.{ends_bare};
ghost use Rattle.filter_text.specs.Shapes.{shape, shapes};
ghost use Rattle.filter_text.specs.Printing.{path_text, printed, printed_inside, printed_members, printed_pieces};
ghost use Rattle.filter_text.specs.Views.{comma};

use crate::Filter;
use crate::names::ends_bare;
use path_names::{Path, quoted};
use std::alloc::{AllocError, Global};

// Whether some byte can't stand in a bare path.
fn wants_quotes(text: &[u8]) -> bool
    ensures { result ≡ list_any ends_bare text.now }
{
    text.iter().any(|x| ends_bare(*x))
}

// Adds a path, bare or between quotes.
fn add_path(alloc: Global, out: &mut Vec<u8>, path: &Path) -> Result<(), AllocError>
    ensures { OnOk result (out.new.items ≡ out.old.items ++ path_text path.now) }
{
    let text = path.text(alloc)?;
    if wants_quotes(&text) {
        let text = quoted(alloc, &text)?;
        return out.extend_from_slice(&text);
    }
    out.extend_from_slice(&text)
}

// Adds a word and the path behind it.
fn add_named(alloc: Global, out: &mut Vec<u8>, word: &[u8], path: &Path) -> Result<(), AllocError>
    ensures { OnOk result (out.new.items ≡ out.old.items ++ (word.now ++ path_text path.now)) }
{
    out.extend_from_slice(word)?;
    add_path(alloc, out, path)
}

// Adds a comma where one is wanted.
fn add_comma(out: &mut Vec<u8>, wanted: bool) -> Result<(), AllocError>
    ensures { OnOk result (out.new.items ≡ out.old.items ++ comma wanted) }
{
    if wanted {
        return out.extend_from_slice(b",");
    }
    Ok(())
}

#[cycle(printing)]
fn add_filter(alloc: Global, out: &mut Vec<u8>, filter: &Filter) -> Result<(), AllocError>
    ensures { OnOk result (out.new.items ≡ out.old.items ++ printed (shape filter.now)) }
{
    match filter {
        Filter::Nop => out.extend_from_slice(b":nop"),
        Filter::Sub(path) => add_named(alloc, out, b":/", path),
        Filter::Prefix(path) => add_named(alloc, out, b":prefix=", path),
        Filter::Dir(path) => {
            add_named(alloc, out, b"::", path)?;
            out.extend_from_slice(b"/")
        }
        Filter::File(path) => add_named(alloc, out, b"::", path),
        Filter::Exclude(inner) => {
            out.extend_from_slice(b":exclude[")?;
            add_inside(alloc, out, inner)?;
            out.extend_from_slice(b"]")
        }
        Filter::Join(members) => {
            out.extend_from_slice(b":[")?;
            add_members(alloc, out, members.as_slice())?;
            out.extend_from_slice(b"]")
        }
        Filter::Chain(members) => add_pieces(alloc, out, members.as_slice()),
        Filter::Workspace(path) => add_named(alloc, out, b":workspace=", path),
    }
}

// Adds what an exclude has between its brackets.
#[cycle(printing)]
fn add_inside(alloc: Global, out: &mut Vec<u8>, filter: &Filter) -> Result<(), AllocError>
    ensures { OnOk result (out.new.items ≡ out.old.items ++ printed_inside (shape filter.now)) }
{
    match filter {
        Filter::Join(members) => {
            if members.as_slice().len() == 1 {
                return add_filter(alloc, out, filter);
            }
            add_members(alloc, out, members.as_slice())
        }
        _ => add_filter(alloc, out, filter),
    }
}

// Adds members with commas between them.
#[cycle(printing)]
fn add_members(alloc: Global, out: &mut Vec<u8>, members: &[Filter]) -> Result<(), AllocError>
    ensures { OnOk result (out.new.items ≡ out.old.items ++ printed_members (shapes members.now)) }
{
    for (i, m) in members.iter().enumerate() {
        add_comma(out, i > 0)?;
        add_filter(alloc, out, m)?;
    }
    Ok(())
}

// Adds the pieces of a chain.
#[cycle(printing)]
fn add_pieces(alloc: Global, out: &mut Vec<u8>, members: &[Filter]) -> Result<(), AllocError>
    ensures { OnOk result (out.new.items ≡ out.old.items ++ printed_pieces (shapes members.now)) }
{
    for m in members {
        add_filter(alloc, out, m)?;
    }
    Ok(())
}

/// The canonical text of a filter.
pub fn print(alloc: Global, filter: &Filter) -> Result<Vec<u8>, AllocError>
    ensures { IfOk result (λ text. text.items ≡ printed (shape filter.now)) }
{
    let mut text = Vec::new(alloc);
    add_filter(alloc, &mut text, filter)?;
    Ok(text)
}
