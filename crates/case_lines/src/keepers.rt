// Keepers in memory, as lines set them up.
ghost use Rattle.std.specs.Prelude.{◌≡◌, false};

use crate::{Fault, Texts, Word, add_printed, number_of, text_of};
use proj_io::{Failing, Keeper, MemKeeper};
use std::alloc::{AllocError, Global};
use std::mem;

/// The number of the call that fails, and `landed` where its item is left there. No words: none fails.
pub fn failing_of(alloc: Global, words: &[Word]) -> Result<Vec<Failing>, Fault> {
    match words {
        [] => Ok(Vec::new(alloc)),
        [call] => failing(alloc, call, false),
        [call, word] if word.text() == "landed" => failing(alloc, call, true),
        _ => Err(Fault::BadLine),
    }
}

fn failing(alloc: Global, call: &Word, landed: bool) -> Result<Vec<Failing>, Fault> {
    let call = number_of(&call.bytes)?;
    let mut failing = Vec::new(alloc);
    failing.push(Failing { call, landed })?;
    Ok(failing)
}

/// The keeper, opened again. An empty one is left in its place.
pub fn reopened(alloc: Global, keeper: &mut MemKeeper) -> MemKeeper
    ensures { result.broken ≡ false }
{
    mem::replace(keeper, MemKeeper::new(alloc, Vec::new(alloc))).reopen()
}

/// Opens a keeper again and adds an item of at most 2,000,000 bytes.
pub fn add_item(alloc: Global, keeper: &mut MemKeeper, item: &[u8]) -> Result<(), Fault> {
    if item.is_empty() || item.len() > 2_000_000 {
        return Err(Fault::BadLine);
    }
    let mut open = reopened(alloc, keeper);
    if open.items().len() > 1000 {
        return Err(Fault::BadLine);
    }
    let added = open.append(item);
    *keeper = open;
    added.ok().ok_or(Fault::BadLine)
}

/// The names of the texts that a keeper's items are. An item that is no text is told in hex.
pub fn items_said(alloc: Global, texts: &Texts, keeper: &MemKeeper) -> Result<String, Fault> {
    if keeper.items().is_empty() {
        return text_of(alloc, "no items");
    }
    let mut said = String::from_str(alloc, "items")?;
    add_items(&mut said, texts, keeper)?;
    Ok(said)
}

fn add_items(said: &mut String, texts: &Texts, keeper: &MemKeeper) -> Result<(), AllocError> {
    for item in keeper.items() {
        said.push(' ')?;
        add_item_name(said, texts, item.bytes())?;
    }
    Ok(())
}

fn add_item_name(said: &mut String, texts: &Texts, item: &[u8]) -> Result<(), AllocError> {
    match texts.name_of(item) {
        Some(name) => add_printed(said, name),
        None => add_hex(said, item),
    }
}

fn add_hex(said: &mut String, item: &[u8]) -> Result<(), AllocError> {
    let digits = hex::encode(*said.allocator(), item)?;
    said.push_str(digits.as_str())
}
