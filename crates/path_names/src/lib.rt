//! Paths, ref names, users' names, texts between quotes, and words and numbers at the front of texts.
#![tactic(auto)]

mod laws;
mod order;
mod parts;
mod path;
mod quoting;
mod ref_name;
mod user_name;
mod words;

pub use laws::{comparable_law, path_law, path_order_law, path_text_law, quoting_law};
pub use order::{before, comparable};
pub use path::{Path, PathFault, is_path_text, path_in};
pub use quoting::{QuoteFault, Unquoted, quote, quoted, unquote};
pub use ref_name::{RefFault, RefName, is_ref_name};
pub use user_name::is_user;
pub use words::{is_digit, number, strip};
