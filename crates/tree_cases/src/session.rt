// What lines of cases work on.
use crate::{laying, routes, showing, stages, texts};
use case_lines::{Answers, Fault, Texts, Word};
use filter_routes::Tables;
use object_store::Store;
use std::alloc::Global;
use std::marker::Brand;
use std::sync::ledger::Blank;

/// What earlier lines made.
#[derive(Drop)]
pub struct Session {
    tables: Tables,
    store: Store,
}

impl Session {
    pub fn new(alloc: Global) -> Session {
        Session {
            tables: Tables::new(alloc),
            store: Store::new(alloc),
        }
    }

    // Adds the answer to a line on trees.
    fn add_asked(
        &mut self,
        alloc: Global,
        out: &mut String,
        texts: &Texts,
        form: &str,
        words: &[Word],
    ) -> Result<(), Fault> {
        match form {
            "join" => laying::add_joined(alloc, out, texts, &mut self.store, words),
            "lay" => laying::add_laid_below(alloc, out, texts, &mut self.store, words),
            "stage" => stages::add_staged(alloc, out, &mut self.store, words),
            form => self.add_seen(alloc, out, texts, form, words),
        }
    }

    // Adds the answer to a line on trees and filters.
    fn add_seen(
        &mut self,
        alloc: Global,
        out: &mut String,
        texts: &Texts,
        form: &str,
        words: &[Word],
    ) -> Result<(), Fault> {
        let store = &mut self.store;
        let tables = &mut self.tables;
        match form {
            "resolve" => showing::add_resolved(alloc, out, texts, store, tables, words),
            "laid" => laying::add_laid(alloc, out, texts, store, tables, words),
            "unseen" => laying::add_unseen(alloc, out, texts, store, tables, words),
            "shown" => {
                let blank = Blank::new(1);
                showing::add_shown::<Brand>(alloc, out, texts, store, tables, words, blank)
            }
            _ => Err(Fault::BadLine),
        }
    }
}

impl Answers for Session {
    fn answer(
        &mut self,
        alloc: Global,
        texts: &mut Texts,
        words: &[Word],
    ) -> Result<Option<String>, Fault> {
        let [form, words @ ..] = words else {
            return Err(Fault::BadLine);
        };
        let mut out = String::new(alloc);
        match form.text() {
            "parse" | "items" | "sound" | "list" | "image" | "origin" => {
                add_read(&mut out, texts, form.text(), words)?;
            }
            form => self.add_asked(alloc, &mut out, texts, form, words)?,
        }
        Ok(Some(out))
    }
}

// Adds the answer to a line on filters alone.
fn add_read(out: &mut String, texts: &Texts, form: &str, words: &[Word]) -> Result<(), Fault> {
    match form {
        "list" => routes::add_listed(out, texts, words),
        "image" | "origin" => routes::add_way(out, texts, form, words),
        form => add_of_text(out, form, &texts.spelled(words)?),
    }
}

// Adds the answer to a line of which only the text matters that its words spell.
fn add_of_text(out: &mut String, form: &str, text: &[u8]) -> Result<(), Fault> {
    match form {
        "parse" => texts::add_parsed(out, text),
        "items" => texts::add_items(out, text),
        _ => routes::add_soundness(out, text),
    }
}
