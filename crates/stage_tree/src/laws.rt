// Laws of the definitions that other contracts cite.
ghost use Rattle.stage_tree.specs.Laws.{GrownStoreLaw, OneTreeLaw};

/// A stage shows one tree alone.
pub fn one_tree_law()
    ensures { OneTreeLaw }
{}

/// A stage shows the same tree over a store that has grown.
pub fn grown_store_law()
    ensures { GrownStoreLaw }
{}
