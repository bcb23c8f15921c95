//! The language of filters: its texts, and the files that list a workspace's items.
#![tactic(auto)]

mod filter;
mod frame;
mod gaps;
mod items;
mod laws;
mod limits;
mod making;
mod names;
mod parsing;
mod printing;
mod reader;
mod values;
mod word;

pub use filter::{Filter, FilterFault, Item, ItemsFault};
pub use items::parse_items;
pub use laws::{depth_law, grammar_law, print_law, same_law};
pub use parsing::parse;
pub use printing::print;
pub use values::{copy, same};
