//! The items of a store: reading them, writing them, and what they hold.
#![tactic(auto)]

mod cursor;
mod fault;
mod kept;
mod kept_fields;
mod laws;
mod objects;
mod reading;
mod ref_fields;
mod tag_fields;
mod tag_places;
mod tags;
mod taken;
mod writing;

pub use commit_map::Rule;
pub use fault::ItemFault;
pub use kept::KeptMaps;
pub use kept_fields::is_canonical;
pub use laws::{
    append_law, canonical_law, change_law, hand_law, imported_law, kept_law, old_items_law,
    read_law, stored_law, tagged_change_law, tagged_law,
};
pub use objects::parent_places;
pub use reading::{Loaded, Reading};
pub use tags::{changed_tags, with_tags};
pub use taken::first_taken;
pub use writing::{
    add_size, change_heads, change_parts, change_size, count_commits, first_passed, found_objects,
    kept_item, rule_item,
};
