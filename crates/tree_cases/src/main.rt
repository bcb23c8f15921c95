//! Answers cases of filters and of trees, a line each, from standard input: texts, soundness and ways of paths;
//! the filter for a tree, what filters show of trees, and what is laid back into them; and edits of a stage.
#![tactic(auto)]

mod edits;
mod laying;
mod leaves;
mod routes;
mod session;
mod showing;
mod stages;
mod texts;
mod words;

use case_lines::{Fault, answer_lines};
use session::Session;

fn main(rt: HostRuntime) -> Result<(), Fault> {
    answer_lines(&rt, &mut Session::new(rt.alloc()))
}
