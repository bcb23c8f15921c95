//! Annotated tags of commits: their names, their objects, and the commands of a stream that make them.
#![tactic(auto)]

mod laws;
mod listing;
mod tag;
mod tag_name;
mod writing;

pub use laws::{changing_law, putting_law};
pub use listing::put_tag;
pub use tag::{Tag, tag_object_name};
pub use tag_name::{TagName, TagNameFault};
pub use writing::write_tags;
