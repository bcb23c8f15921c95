// What the filter for a tree keeps to.
ghost use Rattle.workspace.specs.Laws.{ResolveLaw};

/// The filter for a tree is sound where the filter is, and has no workspace left; and the leaf at the workspace place
/// is the one that the pieces before the workspace show as its file.
pub fn resolve_law()
    ensures { ResolveLaw }
{}
