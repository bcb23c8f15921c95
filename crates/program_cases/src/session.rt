// What lines of cases work on.
use crate::fronts::run_fronts;
use crate::outcomes::outcome;
use crate::runs::{run_judged, run_words};
use case_lines::{Answers, Fault, Texts, Word, add_item, count_of, failing_of, number_of};
use proj_io::MemKeeper;
use std::alloc::Global;

/// What earlier lines made: a store, and how the other devices of the next call behave.
#[derive(Drop)]
pub struct Session {
    pub keeper: MemKeeper,
    /// How many bytes the input, the output and the error stream move in a call.
    pub most: usize,
    pub failing: FailingCalls,
}

/// The numbers of the calls that fail, of each device.
#[derive(Drop)]
pub struct FailingCalls {
    pub input: Vec<u64>,
    pub out: Vec<u64>,
    pub err: Vec<u64>,
}

impl FailingCalls {
    pub fn new(alloc: Global) -> FailingCalls {
        FailingCalls {
            input: Vec::new(alloc),
            out: Vec::new(alloc),
            err: Vec::new(alloc),
        }
    }
}

impl Session {
    pub fn new(alloc: Global) -> Session {
        Session {
            keeper: MemKeeper::new(alloc, Vec::new(alloc)),
            most: 64,
            failing: FailingCalls::new(alloc),
        }
    }

    // Lets a call of a device fail, in the next run alone.
    fn fail(&mut self, words: &[Word]) -> Result<(), Fault> {
        let [device, call] = words else {
            return Err(Fault::BadLine);
        };
        let call = number_of(&call.bytes)?;
        match device.bytes.as_slice() {
            b"in" => self.failing.input.push(call)?,
            b"out" => self.failing.out.push(call)?,
            b"err" => self.failing.err.push(call)?,
            _ => return Err(Fault::BadLine),
        }
        Ok(())
    }

    // Changes what the next call works on: its store, the bytes that devices move, or the calls that fail.
    fn change(
        &mut self,
        alloc: Global,
        texts: &Texts,
        word: &[u8],
        inner: &[Word],
    ) -> Result<(), Fault> {
        match word {
            b"store" => self.keeper = MemKeeper::new(alloc, failing_of(alloc, inner)?),
            b"keep" => self.keep(alloc, texts, inner)?,
            b"pieces" => self.most = pieces_of(inner)?,
            b"fail" => self.fail(inner)?,
            _ => return Err(Fault::BadLine),
        }
        Ok(())
    }

    // Keeps the item that is spelled.
    fn keep(&mut self, alloc: Global, texts: &Texts, pieces: &[Word]) -> Result<(), Fault> {
        let item = texts.spelled(pieces)?;
        add_item(alloc, &mut self.keeper, &item)
    }
}

impl Answers for Session {
    fn answer(
        &mut self,
        alloc: Global,
        texts: &mut Texts,
        words: &[Word],
    ) -> Result<Option<String>, Fault> {
        let [first, inner @ ..] = words else {
            return Err(Fault::BadLine);
        };
        match first.bytes.as_slice() {
            b"run" => Ok(Some(run_words(alloc, texts, self, inner)?)),
            b"judged" => Ok(Some(run_judged(alloc, texts, self, inner)?)),
            b"fronts" => Ok(Some(run_fronts(alloc, texts, &self.keeper, inner)?)),
            b"outcome" => Ok(Some(outcome(alloc, texts, inner)?)),
            word => {
                self.change(alloc, texts, word, inner)?;
                Ok(None)
            }
        }
    }
}

fn pieces_of(words: &[Word]) -> Result<usize, Fault> {
    let [size] = words else {
        return Err(Fault::BadLine);
    };
    count_of(size)
}
