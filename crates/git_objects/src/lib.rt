//! Git's objects: components, idents, names and bodies, by the Git object format with SHA-1.
#![tactic(auto)]

mod bytes;
mod commit;
mod commit_view;
mod component;
mod entry;
mod entry_order;
mod ident;
mod kind;
mod laws;
pub mod limits;
mod mode;
mod name;
mod quantity;
mod steps;
mod tree_laws;
mod tree_view;

pub use bytes::Bytes;
pub use commit::{CommitParts, encode_commit};
pub use commit_view::{CommitView, tree_in_commit};
pub use component::{Component, is_component};
pub use entry::{Entry, add_entry, encode_tree};
pub use entry_order::{compare_bytes, compare_components};
pub use ident::{Ident, IdentFault, cut};
pub use kind::Kind;
pub use laws::{commit_body_law, ident_law, tree_body_law};
pub use mode::Mode;
pub use name::{Name, name_bytes_law, name_of};
pub use quantity::Quantity;
pub use steps::Steps;
pub use tree_laws::{edit_law, listing_law, name_law};
pub use tree_view::{EntryView, TreeView};
