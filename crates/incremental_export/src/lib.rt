//! Commits written as a stream of git-fast-import(1), each with what it changes, for a repository that has others
//! already.
#![tactic(auto)]

mod commits;
mod compare;
mod export;
mod laws;
mod lines;
mod parting;

pub use compare::{Changes, Placed, tree_changes};
pub use export::write_changes;
pub use laws::{
    changing_law, parting_law, read_upon_law, stored_new_law, stored_unreached_law, tagged_upon_law,
};
pub use parting::unreached;
