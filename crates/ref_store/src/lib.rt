//! Refs: the commit of each ref name, in order of arrival.
#![tactic(auto)]

mod laws;
mod moves;
mod refs;

pub use laws::set_law;
pub use moves::forward;
pub use refs::Refs;
