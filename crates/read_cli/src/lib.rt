//! What `proj_read` does: it looks into a store, and changes nothing.
#![tactic(auto)]

mod checking;
mod deliver;
mod judging;
mod logging;
mod named;
mod newly;
mod program;
mod reports;
mod serving;
mod words;

pub use program::read;
pub use proj_cli::{Outcome, Served, outcome_code};
pub use serving::read_on;
