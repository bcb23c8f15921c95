//! What a filter becomes for a tree, by the workspace file in it.
#![tactic(auto)]

mod giving;
mod laws;
mod listing;
mod parts;
mod place;
mod resolving;

pub use giving::{LeafGives, leaf_gives};
pub use laws::resolve_law;
pub use place::file_place;
pub use resolving::{Resolved, leaf_at, leaf_where, resolve, resolve_leaf};
