//! Lines and blocks of a stream that comes in pieces (git-fast-import(1)).
#![tactic(auto)]

mod blocks;
mod cursor;
mod laws;
mod lexer;
mod lines;
mod stop;

pub use blocks::block;
pub use cursor::{Cursor, LineView};
pub use laws::{block_law, cutting_law, line_law};
pub use lexer::{BlockAnswer, LexFault, Lexer, LineAnswer};
pub use lines::{any_line, is_comment, line};
pub use stop::{LimitFault, Stop, Wanted};
