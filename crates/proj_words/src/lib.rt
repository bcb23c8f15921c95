//! What the words of a command line and the entries of a batch ask for, how a command ends, and the texts of a trial.
#![tactic(auto)]

mod cut;
mod entries;
mod faults;
mod outcome;
mod texts;
mod trial;
mod words;

pub use entries::{Entry, read_entries};
pub use outcome::{FilterWhat, Outcome, outcome_code};
pub use texts::{outcome_text, plain_text};
pub use trial::{TrialPush, first_push, push_stream, second_push, third_push, trial_stream};
pub use words::{Command, Query, line_command, read_command};
