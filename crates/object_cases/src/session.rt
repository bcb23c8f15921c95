// What lines of cases work on.
use crate::{bodies, stores};
use case_lines::{Answers, Fault, Texts, Word, number_of};
use object_store::Store;
use std::alloc::Global;

/// What earlier lines made.
#[derive(Drop)]
pub struct Session {
    store: Store,
}

impl Session {
    pub fn new(alloc: Global) -> Session {
        Session {
            store: Store::new(alloc),
        }
    }

    // Asks so many times, and answers what came last.
    fn repeated(
        &mut self,
        alloc: Global,
        texts: &mut Texts,
        count: u64,
        words: &[Word],
    ) -> Result<Option<String>, Fault> {
        let mut answer = None;
        for _ in 0..count {
            answer = self.asked(alloc, texts, words)?;
        }
        Ok(answer)
    }

    fn asked(
        &mut self,
        alloc: Global,
        texts: &mut Texts,
        words: &[Word],
    ) -> Result<Option<String>, Fault> {
        let [subject, form, words @ ..] = words else {
            return Err(Fault::BadLine);
        };
        match subject.text() {
            "body" => bodies::answer(alloc, texts, form.text(), words).map(Some),
            "store" => stores::answer(alloc, texts, &mut self.store, form.text(), words),
            _ => Err(Fault::BadLine),
        }
    }
}

impl Answers for Session {
    fn answer(
        &mut self,
        alloc: Global,
        texts: &mut Texts,
        words: &[Word],
    ) -> Result<Option<String>, Fault> {
        match words {
            [first, count, inner @ ..] if first.text() == "repeat" => {
                self.repeated(alloc, texts, number_of(&count.bytes)?, inner)
            }
            _ => self.asked(alloc, texts, words),
        }
    }
}
