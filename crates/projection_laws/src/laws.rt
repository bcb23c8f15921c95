// What projections and histories keep to.
ghost use Rattle.projection_laws.specs.Histories.{OrderLaw};
ghost use Rattle.projection_laws.specs.ProjectionLaws.{HistoryLaw, ProjectionLaw, StayLaw};

/// A projection has the name of the shown tree, stays when commits are added, and is what it is from scratch where true
/// projections are kept.
pub fn projection_law()
    ensures { ProjectionLaw }
{}

/// A history is the list of the commits that it makes, whose names are distinct and whose parents come before them. Its
/// last one is the projection of its head, where no two different commits that it makes have one name.
pub fn history_law()
    ensures { HistoryLaw }
{}

/// Kept projections of a graph's commits stay true when commits are added.
pub fn stay_law()
    ensures { StayLaw }
{}

/// Where a graph's commits are in a store, their names are of distinct commits, each behind its parents.
pub fn order_law()
    ensures { OrderLaw }
{}
