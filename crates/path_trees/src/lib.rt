//! Reads, edits and walks of stored trees.
#![tactic(auto)]

mod clash;
mod directory;
mod edits;
mod entries;
mod finder;
mod found;
mod join;
mod laws;
mod lookup;
mod pairs;
mod rebuild;
mod walk;

pub use clash::first_clash;
pub use directory::entries_in;
pub use edits::{put_at, remove_at, taken_in};
pub use entries::{insert, taken_entries};
pub use finder::Finder;
pub use found::{Found, Leaf, TreeFault};
pub use join::{JoinFault, join_apart, join_disjoint};
pub use laws::together_law;
pub use lookup::{entry_at, entry_in};
pub use pairs::{Pair, next_pair};
pub use walk::{Walk, entries_at};
