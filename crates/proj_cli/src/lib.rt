//! What the program does: commands over a store, and their answers.
#![tactic(auto)]

mod batching;
mod deliver;
mod laws;
mod program;
mod serving;
mod trying;

pub use batching::batch;
pub use deliver::{conclude, finish, tell};
pub use laws::two_runs_law;
pub use program::run;
pub use proj_words::{Outcome, outcome_code, outcome_text};
pub use serving::{Served, error_code, serve, tell_error};
pub use trying::trial;
