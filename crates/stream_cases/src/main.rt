//! Answers cases of streams, of lines and blocks, of paths, ref names and quoting, a line each, from standard input.
#![tactic(auto)]

mod commands;
mod lexing;
mod names;
mod reading;
mod replays;
mod session;

use case_lines::{Fault, answer_lines};
use session::Session;

fn main(rt: HostRuntime) -> Result<(), Fault> {
    answer_lines(&rt, &mut Session)
}
