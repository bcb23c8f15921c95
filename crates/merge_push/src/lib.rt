//! A pushed history with merges taken back: what its original commits are, and why one may be refused.
#![tactic(auto)]

mod base;
mod commands;
mod commits;
mod entered;
mod fault;
mod filling;
mod parents;
mod planning;

pub use base::MergeBase;
pub use commands::replay_merges;
pub use fault::MergeFault;
pub use history_ground::Origins;
pub use planning::plan_merges;
pub use push_back::{Pair as MergePair, Plan as MergePlan};
