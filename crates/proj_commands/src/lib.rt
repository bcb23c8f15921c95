//! What each command means, and what performs it, upon a state or upon the items of a store.
#![tactic(auto)]

mod auditing;
mod exporting;
mod filters;
mod gating;
mod importing;
mod judging;
mod laws;
mod lines;
mod loading;
mod naming;
mod performing;
mod projecting;
mod pushing;
mod querying;
mod reading;
mod refusals;
mod rule;
mod subjects;
mod tagging;
mod verifying;

pub use exporting::{export, export_granted, export_loaded};
pub use filters::sound_filter;
pub use importing::import;
pub use judging::{Judged, judge};
pub use laws::{alike_law, recall_law, stay_law};
pub use lines::{Telling, leaf_report, projection_report, refs_lines, rule_report, tags_report};
pub use loading::load;
pub use naming::name;
pub use performing::{perform, run_upon};
pub use projecting::project;
pub use pushing::{Manner, push};
pub use querying::JudgedQuery;
pub use reading::read_input;
pub use refusals::apply_outcome;
pub use rule::set_rule;
pub use subjects::{Subject, read_subject, ref_name};
pub use tagging::{shown_tags, tags_beside};
pub use verifying::verify_text;
