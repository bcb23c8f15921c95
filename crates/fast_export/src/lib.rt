//! Commits written as a stream of git-fast-import(1).
#![tactic(auto)]

mod blobs;
mod commits;
mod entries;
mod error;
mod export;
mod given;
mod kept;
mod known;
mod laws;
mod leaves;
mod lines;
mod marked_store;
mod sending;

pub use blobs::write_new_blob;
pub use commits::add_head;
pub use error::ExportError;
pub use export::{add_last, write_history};
pub use given::GivenMarks;
pub use laws::{reading_again_law, stored_history_law, tagged_again_law};
pub use leaves::{behind, below};
pub use lines::{add_leaf_line, add_line, add_mark_line};
pub use sending::{PIECE, put, send, send_piece};
