//! Cases as lines of text: the words of a line, named texts, the values of words, keepers, how an answer is printed,
//! and the programs that answer.
#![tactic(auto)]

mod answers;
mod fault;
mod keepers;
mod line;
mod objects;
mod printing;
mod texts;
mod values;
mod word;

pub use answers::{Answers, answer_lines};
pub use fault::Fault;
pub use keepers::{add_item, failing_of, items_said, reopened};
pub use objects::put_object;
pub use printing::{add_digits, add_path, add_printed, path_text, printed, text_of};
pub use texts::Texts;
pub use values::{digits_of, name_of, path_of, ref_name_of};
pub use word::{Word, count_of, number_of};
