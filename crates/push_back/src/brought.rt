// What a push brings, by its names.
use git_objects::Name;

/// A pushed commit, and the original commit that is made of it.
#[derive(Clone, Copy, Debug)]
pub struct Pair {
    pub pushed: Name,
    pub original: Name,
}

/// What a push brings: the blobs that its stream gave, as often as they stand there, and its commits in order.
#[derive(Drop)]
pub struct Plan {
    pub blobs: Vec<Name>,
    pub commits: Vec<Pair>,
}
