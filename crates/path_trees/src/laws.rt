// A law of the definitions that other contracts cite.
ghost use Rattle.path_trees.specs.Laws.{TogetherLaw};

/// Two trees without a clash are a tree together, in which each path has what it has in one of them. No path of the one
/// is comparable with a path of the other.
pub fn together_law()
    ensures { TogetherLaw }
{}
