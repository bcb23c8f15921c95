// What lines of cases ask.
use crate::reading::Tags;
use crate::{lexing, names, reading, replays};
use case_lines::{Answers, Fault, Texts, Word};
use std::alloc::Global;

/// What answers the lines. It keeps nothing from line to line.
#[derive(Drop)]
pub struct Session;

impl Answers for Session {
    fn answer(
        &mut self,
        alloc: Global,
        texts: &mut Texts,
        words: &[Word],
    ) -> Result<Option<String>, Fault> {
        let [form, inner @ ..] = words else {
            return Err(Fault::BadLine);
        };
        let mut out = String::new(alloc);
        add_answer(&mut out, texts, form.text(), inner)?;
        Ok(Some(out))
    }
}

// Adds the answer to a line of that form.
fn add_answer(out: &mut String, texts: &Texts, form: &str, words: &[Word]) -> Result<(), Fault> {
    match form {
        "lexer" => lexing::add_asked(out, texts, words),
        form => add_read(out, form, &texts.spelled(words)?),
    }
}

// Adds the answer to a line of which only the text matters that its words spell.
fn add_read(out: &mut String, form: &str, text: &[u8]) -> Result<(), Fault> {
    match form {
        "stream" => reading::add_told(out, text, Tags::Refused),
        "tagged" => reading::add_told(out, text, Tags::Read),
        "more" => reading::add_told_before_the_end(out, text),
        "replay" => replays::add_replayed(out, text),
        form => names::add_read(out, form, text),
    }
}
