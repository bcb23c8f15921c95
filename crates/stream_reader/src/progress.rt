// Where the reading of a stream stands.
use crate::Placed;

/// What is expected next.
#[derive(Clone, Copy)]
pub enum Phase {
    /// A command.
    Between,
    /// A change of a commit, or its end.
    InCommit,
    /// Nothing: `done` was read.
    Finished,
}

/// Whether `done` is wanted at the end, and whether the command `tag` is read.
#[derive(Clone, Copy)]
pub struct Manner {
    pub wants_done: bool,
    pub takes_tags: bool,
}

/// What is expected next, and how it is read.
#[derive(Clone, Copy)]
pub struct Progress {
    pub phase: Phase,
    pub manner: Manner,
}

/// What a line or a command gives.
#[derive(Drop)]
pub enum Event {
    Gives(Placed),
    /// The line gives no command.
    Skips,
    /// The stream ends.
    Ends,
}
