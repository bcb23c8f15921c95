//! Objects by their names, children first.
#![tactic(auto)]

mod commits;
mod incoming;
mod laws;
mod recent;
mod shelf;
mod store;
mod tree_stats;

pub use commits::tree_of;
pub use incoming::Incoming;
pub use laws::{growing_law, store_law, unfolding_law};
pub use store::{ObjectRef, PutError, Store, TreeStats};
