//! A tree laid back into the tree that it was shown of.
#![tactic(auto)]

mod below;
mod blocking;
mod fault;
mod hiding;
mod laws;
mod laying;
mod moving;
mod parts;
mod routing;
mod sifting;

pub use below::laid_below;
pub use blocking::order;
pub use fault::LayFault;
pub use hiding::{differ, image_of, unseen};
pub use laws::{
    below_law, given_back_law, laid_again_law, laying_law, outcome_law, shown_again_law, unseen_law,
};
pub use laying::laid;
