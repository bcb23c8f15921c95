//! What a filter shows of a stored tree, over names of shared subtrees.
#![tactic(auto)]

mod cursor;
mod fault;
mod founds;
mod holes;
mod laws;
mod parts;
mod placing;
mod routes;
mod showing;
mod standing;

pub use fault::ApplyError;
pub use founds::founds_of;
pub use laws::stays_true_law;
pub use parts::part;
pub use placing::placed;
pub use showing::shown;
