//! Replaying streams of git-fast-import(1) into a store.
#![tactic(auto)]

mod base;
mod blobs;
mod branches;
mod change_step;
mod commit_step;
mod commits;
mod draft;
mod edits;
mod laws;
mod marks;
mod parents;
mod puts;
mod replay;
mod replayed;
mod steps;
mod tags;
mod whole;

pub use base::{Base, EmptyBase};
pub use blobs::Blobs;
pub use laws::{replayed_tags_law, waited_law};
pub use replay::Replay;
pub use replayed::{Made, Replayed, Setting, TaggedReplay};
pub use stream_reader::{
    BlobRef, Change, Command, CommitHead, CommitRef, Feature, Merges, Next, Placed, Reader,
    StreamFault, TagHead, Target,
};
pub use whole::{ReplayError, feed_on, replay_all, replay_tagged};
