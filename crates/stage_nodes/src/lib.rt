//! Directories and leaves as nodes of one vector, linked by their numbers: what a stage is made of.
#![tactic(auto)]

mod edits;
mod finish;
mod nodes;
mod root;
mod walks;
mod ways;

pub use nodes::{Content, Link, Node, Nodes};
pub use ways::{Spot, Way};
