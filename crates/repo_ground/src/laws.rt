// What states keep to.
ghost use Rattle.repo_ground.specs.Laws.{GroundLaw, GrownLaw};

/// The ground of a state that has what items hold has exactly the commits that are held, and a stream may name exactly
/// these, their refs and the known blobs.
pub fn ground_law()
    ensures { GroundLaw }
{}

/// A state has what items hold still where projections or a stream have added objects to its store, and projections
/// entries to its map.
pub fn grown_law()
    ensures { GrownLaw }
{}
