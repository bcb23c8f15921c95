// A filter around its workspace.
ghost use Rattle.std.specs.Prelude.{◌≡◌};
ghost use Rattle.std.specs.Option.{option_map, option_copied};
ghost use Rattle.filter_text.specs.Shapes.{shape, shapes};
ghost use Rattle.workspace.specs.Workspaces.{directory_of, split, split_pieces};
ghost use Rattle.workspace.specs.Views.{parts_value};

use filter_text::Filter;
use path_names::Path;

// The pieces before a workspace, its directory, and the pieces behind it.
#[derive(Clone, Copy)]
pub struct Parts<'a> {
    pub before: &'a [Filter],
    pub directory: &'a Path,
    pub behind: &'a [Filter],
}

// The directory, where a piece is a workspace.
fn directory_of(piece: &Filter) -> Option<&Path>
    ensures { option_copied result ≡ directory_of (shape piece.now) }
{
    match piece {
        Filter::Nop => None,
        Filter::Sub(_) => None,
        Filter::Prefix(_) => None,
        Filter::Dir(_) => None,
        Filter::File(_) => None,
        Filter::Exclude(_) => None,
        Filter::Join(_) => None,
        Filter::Chain(_) => None,
        Filter::Workspace(directory) => Some(directory),
    }
}

// Pieces around the first workspace among them.
fn parts_among(pieces: &[Filter]) -> Option<Parts<'_>>
    ensures { option_map parts_value result ≡ split_pieces (shapes pieces.now) }
{
    for i in 0..pieces.len() {
        if let Some(directory) = directory_of(&pieces[i]) {
            return Some(Parts {
                before: &pieces[..i],
                directory,
                behind: &pieces[i + 1..],
            });
        }
    }
    None
}

// The filter around its workspace; None where it has none.
pub fn parts_of(filter: &Filter) -> Option<Parts<'_>>
    ensures { option_map parts_value result ≡ split (shape filter.now) }
{
    match filter {
        Filter::Nop => None,
        Filter::Sub(_) => None,
        Filter::Prefix(_) => None,
        Filter::Dir(_) => None,
        Filter::File(_) => None,
        Filter::Exclude(_) => None,
        Filter::Join(_) => None,
        Filter::Chain(pieces) => parts_among(pieces.as_slice()),
        Filter::Workspace(directory) => Some(Parts {
            before: &[],
            directory,
            behind: &[],
        }),
    }
}
