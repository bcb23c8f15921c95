//! Kept projections of commits, and the rules by which commits are projected.
#![tactic(auto)]

mod commit_map;
mod rule;

pub use commit_map::{CommitMap, Shown};
pub use rule::Rule;
