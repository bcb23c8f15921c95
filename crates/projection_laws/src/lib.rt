//! What commits become by what is shown of their trees, the laws of that, and the bodies of the commits that it makes.
#![tactic(auto)]

mod laws;
mod made;

pub use laws::{history_law, order_law, projection_law, stay_law};
pub use made::own_body;
