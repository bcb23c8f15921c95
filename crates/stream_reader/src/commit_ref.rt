// How a stream names a commit.
use git_objects::Name;
use path_names::RefName;

/// A commit as a stream names it, and the place of the line that does.
#[derive(Drop)]
pub struct CommitRef {
    pub at: u64,
    pub target: Target,
}

/// A commit of the stream by its mark, one by its name, or the head of a ref.
#[derive(Drop)]
pub enum Target {
    Mark(u64),
    Digits(Name),
    Ref(RefName),
}
