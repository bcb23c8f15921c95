// The entries of trees.
ghost use Rattle.std.specs.Prelude.{◌≡◌, ◌++◌, ◌∷◌, true, IfOk, OnOk};
ghost use Rattle.git_objects.specs.Entries.{AreEntries, body_text};
ghost use Rattle.git_objects.specs.Names.{line};
ghost use Rattle.git_objects.specs.Bodies.{is_name, tree_entries};
ghost use Rattle.git_objects.specs.Paths.{is_component};
ghost use Rattle.std.specs.List.{list_all};

use crate::{Component, Mode, Name};
use std::alloc::{AllocError, Global};

/// One entry of a tree.
#[derive(Debug, Drop)]
pub struct Entry {
    pub mode: Mode,
    pub component: Component,
    pub name: Name,
}

/// The body of a tree with these entries, which stand in Git's order: by their components' bytes, a directory's
/// component being compared as if it ended in `/`.
pub fn encode_tree(alloc: Global, entries: &[Entry]) -> Result<Vec<u8>, AllocError>
    requires { AreEntries entries.now }
    ensures body { IfOk result (λ body. body.items ≡ body_text entries.now) }
    ensures read_back { IfOk result (λ body. tree_entries body.items ≡ Some entries.now) }
{
    let body = spell(alloc, entries)?;
    Ok(body)
}

/// Adds one entry to a body: the mode's digits, a space, the component, a zero byte and the 20 bytes of a name. After
/// an error a part of it may be there.
#[inline(always)]
pub fn add_entry(
    body: &mut Vec<u8>,
    mode: Mode,
    component: &[u8],
    name: &Name,
) -> Result<(), AllocError>
    ensures { OnOk result (body.new.items ≡ body.old.items ++ line mode component.now name.now.0) }
{
    add_line(body, mode, component, name)
}

// What entries spell, in whatever order.
pub fn spell(alloc: Global, entries: &[Entry]) -> Result<Vec<u8>, AllocError>
    ensures body { IfOk result (λ body. body.items ≡ body_text entries.now) }
    ensures names { OnOk result (list_all (λ e. is_name e.name.0) entries.now ≡ true) }
    ensures components { OnOk result (list_all (λ e. is_component e.component) entries.now ≡ true) }
{
    let mut body = Vec::new(alloc);
    for entry in entries {
        add_line(&mut body, entry.mode, entry.component.bytes(), &entry.name)?;
    }
    Ok(body)
}

// A zero byte and the bytes of a name.
#[inline(always)]
fn behind_component(name: &Name) -> [u8; 21]
    ensures bytes { result ≡ 0 ∷ name.now.0 }
    ensures name { is_name name.now.0 ≡ true }
{
    let mut bytes = [0u8; 21];
    bytes[1..].copy_from_slice(name.bytes());
    bytes
}

// Adds one entry. The digits and the space are one append of constant length, which is fast, and so are the zero byte
// and the name.
#[inline(always)]
#[tactic(auto, unfolding(crate::specs::Names::line))]
fn add_line(body: &mut Vec<u8>, mode: Mode, component: &[u8], name: &Name) -> Result<(), AllocError>
    ensures line { OnOk result (body.new.items ≡ body.old.items ++ line mode component.now name.now.0) }
    ensures name { OnOk result (is_name name.now.0 ≡ true) }
{
    match mode {
        Mode::File => body.extend_from_slice(b"100644 ")?,
        Mode::Exec => body.extend_from_slice(b"100755 ")?,
        Mode::Link => body.extend_from_slice(b"120000 ")?,
        Mode::Module => body.extend_from_slice(b"160000 ")?,
        Mode::Dir => body.extend_from_slice(b"40000 ")?,
    }
    body.extend_from_slice(component)?;
    body.extend_from_slice(&behind_component(name))?;
    Ok(())
}
