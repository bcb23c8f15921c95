//! A state that a keeper's items spell, upon which commits are projected.
#![tactic(auto)]

mod commit;
mod draft;
mod enter;
mod filter_maps;
mod holding;
mod keep;
mod laws;
mod loading;
mod moved;
mod moves;
mod rule;
mod selecting;
mod state;
mod taking;
mod view;
mod walk;

pub use commit::{Batch, CommitError};
pub use laws::{ground_law, grown_law};
pub use moves::Backward;
pub use state::{LoadError, State};
pub use view::StateView;
