//! Answers cases of the program, a line each, from standard input: calls of `run` on devices in memory.
#![tactic(auto)]

mod fronts;
mod keepers;
mod outcomes;
mod runs;
mod session;

use case_lines::{Fault, answer_lines};
use session::Session;

fn main(rt: HostRuntime) -> Result<(), Fault> {
    answer_lines(&rt, &mut Session::new(rt.alloc()))
}
