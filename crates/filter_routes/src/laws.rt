// What soundness is for.
ghost use Rattle.filter_routes.specs.Laws.{FaultLaw, RouteLaw, TablesLaw};
ghost use Rattle.filter_routes.specs.FaultTests.{FaultTestLaw};
ghost use Rattle.filter_routes.specs.Lenses.{SeenLaw};
ghost use Rattle.filter_routes.specs.Origins.{LensLaw};
ghost use Rattle.filter_routes.specs.SoundTests.{SoundTestLaw};
ghost use Rattle.filter_routes.specs.Lists.{IsListOf};
ghost use Rattle.filter_routes.specs.Soundness.{IsSound};
ghost use Rattle.filter_text.specs.Filters.{has_paths};
ghost use Rattle.filter_text.specs.Shapes.{shape};
ghost use Rattle.std.specs.Prelude.{◌≡◌, true};

use crate::Table;

/// Under a sound filter equal images come only from equal paths, and comparable images only from comparable paths; the
/// image of a path is a path.
pub fn route_law()
    ensures { RouteLaw }
{}

/// A filter with a fault isn't sound, and no filter has two faults: what a check answers is exact both ways.
pub fn fault_law()
    ensures { FaultLaw }
{}

/// Filters that texts spell have one canonical text exactly where they are one filter: tables are found by this text.
pub fn tables_law()
    ensures { TablesLaw }
{}

/// A sound filter is a lens, and its origins are exactly the paths whose images they are.
pub fn lens_law()
    ensures { LensLaw }
{}

/// The test of soundness by decision lists says exactly which filters are sound.
pub fn sound_test_law()
    ensures { SoundTestLaw }
{}

/// The test that tells the first fault of a filter by decision lists is exact.
pub fn fault_test_law()
    ensures { FaultTestLaw }
{}

/// What is seen of a tree through a lens is a tree, and has at each path the leaf of the path's origin.
pub fn seen_law()
    ensures { SeenLaw }
{}

/// What each table keeps: its list is its filter's, and the filter is sound and has paths. The call does nothing: a
/// proof cites it.
pub fn table_law(table: &Table)
    ensures list { IsListOf (shape table.now.filter) table.now.routes }
    ensures sound { IsSound (shape table.now.filter) }
    ensures paths { has_paths (shape table.now.filter) ≡ true }
{
    let _entries = table.entries();
}
