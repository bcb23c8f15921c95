//! Projections of commits and histories, over what a state holds.
#![tactic(auto)]

mod before;
mod heads;
mod histories;
mod making;
mod origins;
mod walking;

pub use before::shown_before;
pub use heads::{Seen, commit_tree, seen_head, shown_tree};
pub use histories::{history, put_commit};
pub use origins::{First, Origins};
pub use walking::project_to;
