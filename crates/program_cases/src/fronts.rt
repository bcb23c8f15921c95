// What the program says to each front of an item.
use crate::runs::{called_plainly, parted, strings};
use case_lines::{Fault, Texts, Word, add_item, reopened};
use proj_io::MemKeeper;
use std::alloc::{AllocError, Global};

/// Calls the program, with the words in front of `<` and without input, on the items of a store and each front behind
/// them of the item that is spelled behind `<`, which is shorter than the item: a line for each run of sizes of which
/// the same is said.
pub fn run_fronts(
    alloc: Global,
    texts: &Texts,
    keeper: &MemKeeper,
    words: &[Word],
) -> Result<String, Fault> {
    let (front, pieces) = parted(words);
    let words = strings(alloc, texts, front)?;
    let item = texts.spelled(pieces)?;
    let mut runs = Runs {
        lines: String::new(alloc),
        first: 1,
        said: String::new(alloc),
    };
    for size in 1..item.len() {
        let said = said_behind(alloc, &words, keeper, item.get(..size).unwrap_or(&[]))?;
        runs.take(size, said)?;
    }
    runs.end(item.len().saturating_sub(1))?;
    Ok(runs.lines)
}

// What the program says to an item behind those of a store, in one line.
fn said_behind(
    alloc: Global,
    words: &[String],
    behind: &MemKeeper,
    item: &[u8],
) -> Result<String, Fault> {
    let mut keeper = MemKeeper::new(alloc, Vec::new(alloc));
    for held in behind.items() {
        add_item(alloc, &mut keeper, held.bytes())?;
    }
    add_item(alloc, &mut keeper, item)?;
    let mut keeper = reopened(alloc, &mut keeper);
    let said = called_plainly(alloc, words, &mut keeper)?;
    Ok(joined(alloc, said.as_str())?)
}

// Lines as one, each behind a space.
fn joined(alloc: Global, text: &str) -> Result<String, AllocError> {
    let mut line = String::new(alloc);
    for part in text.lines() {
        line.push(' ')?;
        line.push_str(part)?;
    }
    Ok(line)
}

// Sizes of fronts of which the same is said, up to those of which other things are.
#[derive(Drop)]
struct Runs {
    lines: String,
    first: usize,
    said: String,
}

impl Runs {
    // Takes in what is said of a front of this size, which is the next.
    fn take(&mut self, size: usize, said: String) -> Result<(), AllocError> {
        if size > 1 && said.as_str() != self.said.as_str() {
            self.end(size.saturating_sub(1))?;
            self.first = size;
        }
        self.said = said;
        Ok(())
    }

    // Adds the line of the run that ends with this size.
    fn end(&mut self, last: usize) -> Result<(), AllocError> {
        let alloc = *self.lines.allocator();
        let (first, said) = (self.first, &self.said);
        let line = format!(in alloc; "{first} to {last}:{said}\n")?;
        self.lines.push_str(line.as_str())
    }
}
