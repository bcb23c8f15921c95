//! Reading streams of git-fast-import(1), in pieces.
#![tactic(auto)]

mod blocks;
mod changes;
mod command;
mod commit_ref;
mod fault;
mod halt;
mod heads;
mod kinds;
mod laws;
mod lines;
mod modify;
mod names;
mod path_words;
mod progress;
mod reader;
mod turns;
mod words;

pub use command::{BlobRef, Change, Command, CommitHead, Merges, Placed, TagHead};
pub use commit_ref::{CommitRef, Target};
pub use fault::{Feature, StreamFault};
pub use laws::{fault_law, spelling_law, verdict_law};
pub use reader::{Next, Reader};
