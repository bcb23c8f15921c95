//! Who may see and push what: policies, and what they decide.
#![tactic(auto)]

mod laws;
mod policy;
mod rule;
mod words;

pub use laws::{decision_law, reading_law};
pub use policy::{Policy, PolicyFault};
pub use rule::{Act, Verdict};
