//! Devices in memory that never fail: a source over borrowed bytes, a sink that collects bytes, and a keeper that
//! keeps nothing but the number of its items.
#![tactic(auto)]

mod item_counter;
mod sink;
mod source;

pub use item_counter::ItemCounter;
pub use sink::ByteSink;
pub use source::SliceSource;
