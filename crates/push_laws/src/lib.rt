//! What a push is, as definitions, and what accepted pushes keep to.
#![tactic(auto)]

mod laws;

pub use laws::{
    admissible_law, alike_law, back_law, brought_law, chain_law, elsewhere_law, given_law,
    made_law, next_law, projected_law, pushed_law, step_law, steps_law,
};
