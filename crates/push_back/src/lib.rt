//! A pushed history taken back: what its original commits are, and why one may be refused.
#![tactic(auto)]

mod base;
mod brought;
mod commands;
mod commits;
mod error;
mod fault;
mod planning;
mod refusal;
mod replay;
mod sizes;
mod trees;
mod ways;

pub use base::PushBase;
pub use brought::{Pair, Plan};
pub use commands::{OnRef, Pushed, chain_end, end_judged, head_judged};
pub use commits::originals;
pub use error::PushError;
pub use fault::PushFault;
pub use planning::{pairs, plan};
pub use refusal::{OriginalError, TreeRefusal};
pub use replay::{replay_push, replay_upon};
pub use trees::{original_tree, tree_upon};
