//! A bounded memo of what is shown of trees.
#![tactic(auto)]

mod memo;

pub use memo::Memo;
