// Bodies of trees.
ghost use Rattle.std.specs.Prelude.{◌≡◌, true, IfOk, OnOk};
ghost use Rattle.std.specs.List.{list_all};
ghost use Rattle.git_objects.specs.Bodies.{is_name};
ghost use Rattle.git_objects.specs.Entries.{AreEntries, body_text};
ghost use Rattle.git_objects.specs.Paths.{is_component};

use crate::values::mode_of;
use case_lines::{Fault, Texts, Word, digits_of, name_of as name_in, text_of};
use git_objects::{
    Component, Entry, Kind, TreeView, add_entry, encode_tree, is_component, name_bytes_law, name_of,
};
use std::alloc::{AllocError, Global};

/// The answer to a line on bodies: the name of the tree of entries of three words each, mode, name and component.
pub fn answer(alloc: Global, texts: &Texts, form: &str, words: &[Word]) -> Result<String, Fault> {
    if form != "entries" {
        return Err(Fault::BadLine);
    }
    let mut entries = Vec::new(alloc);
    for triple in words.chunks(3) {
        entries.push(entry_of(texts, triple)?)?;
    }
    tree_text(alloc, &entries)
}

// The name of the tree of these entries.
fn tree_text(alloc: Global, entries: &[Entry]) -> Result<String, Fault> {
    if !are_entries(alloc, entries)? {
        return text_of(alloc, "no tree");
    }
    let body = encode_tree(alloc, entries)?;
    digits_of(alloc, &name_of(Kind::Tree, &body))
}

fn entry_of(texts: &Texts, words: &[Word]) -> Result<Entry, Fault> {
    let [mode, name, component] = words else {
        return Err(Fault::BadLine);
    };
    let mode = mode_of(mode)?;
    let name = name_in(texts, name)?;
    let component = texts.word(component)?;
    if !is_component(&component) {
        return Err(Fault::BadLine);
    }
    Ok(Entry {
        mode,
        component: Component::of(component),
        name,
    })
}

// What entries spell, in whatever order.
fn spelled(alloc: Global, entries: &[Entry]) -> Result<Vec<u8>, AllocError>
    ensures body { IfOk result (λ body. body.items ≡ body_text entries.now) }
    ensures names { OnOk result (list_all (λ e. is_name e.name.0) entries.now ≡ true) }
    ensures components { OnOk result (list_all (λ e. is_component e.component) entries.now ≡ true) }
{
    let mut body = Vec::new(alloc);
    for entry in entries {
        name_bytes_law(&entry.name);
        add_entry(&mut body, entry.mode, entry.component.bytes(), &entry.name)?;
    }
    Ok(body)
}

// Whether entries may be encoded.
fn are_entries(alloc: Global, entries: &[Entry]) -> Result<bool, AllocError>
    ensures { IfOk result (λ b. b ≡ true → AreEntries entries.now) }
{
    let body = spelled(alloc, entries)?;
    Ok(TreeView::of(&body).is_some())
}
