// The original path of a workspace's file.
ghost use Rattle.std.specs.Prelude.{◌≡◌, ◌++◌, IfOk, OnOk};
ghost use Rattle.filter_text.specs.Filters.{append, chain};
ghost use Rattle.filter_text.specs.Shapes.{shape, shapes};
ghost use Rattle.filter_routes.specs.Origins.{origin};
ghost use Rattle.filter_routes.specs.Soundness.{AreSound};
ghost use Rattle.workspace.specs.Laws.{IsUsable};
ghost use Rattle.workspace.specs.Workspaces.{file_name, place};

use crate::parts::parts_of;
use filter_routes::Table;
use filter_text::{Filter, copy};
use git_objects::Component;
use path_names::Path;
use std::alloc::{AllocError, Global};

// The path of the workspace's file as its directory has it.
fn file_in(alloc: Global, directory: &Path) -> Result<Path, AllocError>
    ensures { IfOk result (λ p. p ≡ directory.now ++ file_name) }
{
    let file = Component::of(b"workspace.josh".to_vec(alloc)?);
    Path::of_parts(alloc, directory.components(), &vec![in alloc; file]?)
}

// Adds copies of the filters.
pub fn add_copies(onto: &mut Vec<Filter>, alloc: Global, from: &[Filter]) -> Result<(), AllocError>
    ensures { OnOk result (shapes onto.new.items ≡ append (shapes onto.old.items) (shapes from.now)) }
{
    for filter in from {
        onto.push(copy(alloc, filter)?)?;
    }
    Ok(())
}

// The table of the chain of these pieces.
fn table_of(alloc: Global, pieces: &[Filter]) -> Result<Table, AllocError>
    requires sound { AreSound (shapes pieces.now) }
    ensures { IfOk result (λ t. shape t.filter ≡ chain (shapes pieces.now)) }
{
    let mut copies = Vec::new(alloc);
    add_copies(&mut copies, alloc, pieces)?;
    match Table::if_sound(alloc, &Filter::Chain(copies))? {
        None => unreachable!(),
        Some(table) => Ok(table),
    }
}

// The path that the table's filter shows as this one, if one is.
fn origin_of(alloc: Global, table: &Table, image: &Path) -> Result<Option<Path>, AllocError>
    requires { IsUsable (shape table.now.filter) }
    ensures { IfOk result (λ p. p ≡ origin (shape table.now.filter) image.now) }
{
    let components = image.components();
    match table.origin(image) {
        None => Ok(None),
        Some(hit) => {
            let source = table.source(hit.route);
            Ok(Some(Path::of_parts(alloc, source, &components[hit.cut..])?))
        }
    }
}

/// The original path of the file in which the filter's workspace lists its items: the one that the pieces before the
/// workspace show as `workspace.josh` in its directory. None where there is no workspace or no such path.
pub fn file_place(alloc: Global, filter: &Filter) -> Result<Option<Path>, AllocError>
    requires usable { IsUsable (shape filter.now) }
    ensures place { IfOk result (λ p. p ≡ place (shape filter.now)) }
{
    match parts_of(filter) {
        None => Ok(None),
        Some(parts) => {
            let table = table_of(alloc, parts.before)?;
            let file = file_in(alloc, parts.directory)?;
            origin_of(alloc, &table, &file)
        }
    }
}
