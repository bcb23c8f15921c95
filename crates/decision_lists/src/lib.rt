//! Decision lists over cones of paths: the first cone that has a path decides where the path goes.
#![tactic(auto)]

mod backward;
mod clashing;
mod entry;
mod hits;
mod index;
mod indexed;
mod operations;

pub use backward::{back_from, way_back};
pub use clashing::{any_clash, clashes_with_list};
pub use entry::Entry;
pub use hits::{RouteHit, locate, locate_origin};
pub use indexed::Indexed;
pub use operations::{after, either, one_entry, turned};
