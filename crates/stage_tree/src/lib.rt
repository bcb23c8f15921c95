//! A tree that is edited: its directories and leaves are nodes of one vector, linked by their numbers.
#![tactic(auto)]

mod copies;
mod count;
mod fault;
mod last;
mod laws;
mod limits;
mod renames;
mod sets;
mod stage;

pub use fault::StageFault;
pub use laws::{grown_store_law, one_tree_law};
pub use stage::Stage;
