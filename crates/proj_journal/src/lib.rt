//! The journal: a list of items on a disk, which a stop at any moment leaves whole.
#![tactic(auto)]

mod gate;
mod journal;
mod laws;
mod opening;
mod parts;
mod place;
mod records;
mod window;

pub use journal::{Journal, NoJournal};
pub use laws::images_are_whole;
pub use opening::JournalError;
