// Texts of filters and of workspace files.
use case_lines::{Fault, add_path, add_printed};
use filter_text::{Filter, Item, ItemsFault, parse, parse_items, print};
use std::alloc::AllocError;

/// Adds the canonical text of the filter that a text is, or the text's fault.
pub fn add_parsed(out: &mut String, text: &[u8]) -> Result<(), Fault> {
    match &parse(*out.allocator(), text) {
        Ok(filter) => add_canonical(out, text, filter).map_err(Fault::from),
        Err(fault) => write!(out, "{fault}").map_err(Fault::from),
    }
}

fn add_canonical(out: &mut String, text: &[u8], filter: &Filter) -> Result<(), AllocError> {
    let canonical = print(*out.allocator(), filter)?;
    add_printed(out, &canonical)?;
    // Of a long text only its length is printed.
    if canonical.len() > 1000 && canonical.as_slice() == text {
        out.push_str(" as they are given")?;
    }
    Ok(())
}

/// Adds the canonical text of a filter.
pub fn add_filter(out: &mut String, filter: &Filter) -> Result<(), AllocError> {
    let text = print(*out.allocator(), filter)?;
    add_printed(out, &text)
}

/// Adds the place and the filter of each item of a workspace file.
pub fn add_items(out: &mut String, text: &[u8]) -> Result<(), Fault> {
    match &parse_items(*out.allocator(), text) {
        Err(ItemsFault::Unreadable) => out.push_str("unreadable").map_err(Fault::from),
        Err(ItemsFault::OutOfMemory) => Err(Fault::OutOfMemory),
        Ok(items) => add_each(out, items).map_err(Fault::from),
    }
}

fn add_each(out: &mut String, items: &[Item]) -> Result<(), AllocError> {
    if items.is_empty() {
        return out.push_str("no items");
    }
    for item in items {
        add_item(out, item)?;
    }
    Ok(())
}

fn add_item(out: &mut String, item: &Item) -> Result<(), AllocError> {
    add_path(out, &item.place)?;
    out.push(' ')?;
    add_filter(out, &item.filter)?;
    out.push('\n')
}
