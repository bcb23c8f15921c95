// Laws of trees that other contracts cite.
ghost use Rattle.git_objects.specs.TreeLaws.{EditLaw, NameLaw, ListingLaw};

/// What `put` of a leaf or a directory, `remove`, `rename`, `copy` and `under` leave is a tree: in path order, each
/// path once, no two comparable.
pub fn edit_law()
    ensures { EditLaw }
{}

/// Trees that have the same leaf, or none, at each path have the same name.
pub fn name_law()
    ensures { NameLaw }
{}

/// A tree's body lists each first component of its paths once, in Git's order.
pub fn listing_law()
    ensures { ListingLaw }
{}
