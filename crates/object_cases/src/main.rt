//! Answers cases of trees of entries and of a store of objects, a line each, from standard input.
#![tactic(auto)]

mod bodies;
mod session;
mod stores;
mod values;

use case_lines::{Fault, answer_lines};
use session::Session;

fn main(rt: HostRuntime) -> Result<(), Fault> {
    answer_lines(&rt, &mut Session::new(rt.alloc()))
}
