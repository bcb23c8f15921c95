// Laws of paths, and of texts between quotes.
ghost use Rattle.std.specs.Prelude.{◌≡◌, true};
ghost use Rattle.git_objects.specs.Paths.{is_path};
ghost use Rattle.path_names.specs.Laws.{ComparableLaw, PathOrderLaw, PathTextLaw, QuotingLaw};

use crate::Path;

/// Any two paths stand in one of the orders less, equal and greater, and equal ones alone are tied. This order compares
/// the components from the first on, each with the slash that follows it, and gives the same answer as comparing the
/// bytes of the whole texts.
pub fn path_order_law()
    ensures { PathOrderLaw }
{}

/// Two paths are comparable whichever of them is named first.
pub fn comparable_law()
    ensures { ComparableLaw }
{}

/// A text that is read as a path is the text of that path, and the text of any path has its components as the parts
/// between slashes.
pub fn path_text_law()
    ensures { PathTextLaw }
{}

/// What was quoted is unquoted again, whatever follows it.
pub fn quoting_law()
    ensures { QuotingLaw }
{}

/// A path has one component or more, each of them valid. The call does nothing: a proof cites it.
pub fn path_law(path: &Path)
    ensures path { is_path path.now ≡ true }
{
    let _components = path.components();
}
