//! Filters as routes of paths: which filters are sound, where a path goes, and where an image comes from.
#![tactic(auto)]

mod any_list;
mod fault;
mod faults;
mod laws;
mod lists;
mod search;
mod table;
mod tables;

pub use any_list::list_within;
pub use decision_lists::RouteHit;
pub use fault::RouteFault;
pub use faults::first_not_keeping;
pub use laws::{
    fault_law, fault_test_law, lens_law, route_law, seen_law, sound_test_law, table_law, tables_law,
};
pub use lists::is_sound;
pub use search::check;
pub use table::Table;
pub use tables::Tables;
