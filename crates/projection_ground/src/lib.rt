//! What projections are made upon, and what one commit becomes there.
#![tactic(auto)]

mod choosing;
mod ground;
mod seeing;
mod true_maps;
mod turning;

pub use choosing::is_own_upon;
pub use ground::Ground;
pub use seeing::{Asked, seen};
pub use true_maps::{TrueMap, TrueMaps};
pub use turning::{Turn, take_turn};
