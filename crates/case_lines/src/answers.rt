// Programs that answer lines of cases.
use crate::line::add_line;
use crate::{Fault, Texts, Word};
use std::alloc::Global;
use std::io;

/// What lines of cases work on: it answers them, and keeps what earlier lines made.
pub trait Answers {
    /// The answer to what the words of a line ask, or none where nothing is printed. The texts are those that earlier
    /// lines named.
    fn answer(
        &mut self,
        alloc: Global,
        texts: &mut Texts,
        words: &[Word],
    ) -> Result<Option<String>, Fault>;
}

// What is printed for all lines.
fn answered<S: Answers>(alloc: Global, session: &mut S, lines: &str) -> Result<String, Fault> {
    let mut texts = Texts::new(alloc);
    let mut out = String::new(alloc);
    for line in lines.lines() {
        add_line(alloc, session, &mut texts, line, &mut out)?;
    }
    Ok(out)
}

/// Answers each line of the standard input, in turn, on the standard output.
pub fn answer_lines<R: Input + Print + AllocGlobal, S: Answers>(
    rt: &R,
    session: &mut S,
) -> Result<(), Fault> {
    let lines = io::read_to_string(rt.alloc(), rt.reader())?;
    let out = answered(rt.alloc(), session, lines.as_str())?;
    print!(rt; "{out}").map_err(Fault::from)
}
