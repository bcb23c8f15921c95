//! What a push with merges is, as definitions, and what accepted pushes keep to.
#![tactic(auto)]

mod laws;

pub use laws::{
    admissible_merge_law, goes_on_law, in_line_law, joined_law, merge_brought_law, merge_given_law,
    merge_made_law, merge_pushed_law, merge_steps_law, merged_law, names_law, parents_law,
    plain_law, same_push_law, tied_law,
};
