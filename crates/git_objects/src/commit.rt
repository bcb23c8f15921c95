// Commits.
ghost use Rattle.std.specs.Prelude.{◌≡◌, ◌≤◌, ◌++◌, [], true, IfOk, OnOk, length, map};
ghost use Rattle.std.specs.List.{list_all};
ghost use Rattle.git_objects.specs.Commits.{field, parent_lines, letter_text, commit_body, hex};
ghost use Rattle.git_objects.specs.Idents.{is_ident};
ghost use Rattle.git_objects.specs.Bodies.{is_name};
ghost use Rattle.git_objects.specs.CommitBodies.{commit_from};
ghost use Rattle.git_objects.specs.Parts.{commit_of, name_bytes};

use crate::name::digits;
use crate::{Bytes, Ident, Name};
use std::alloc::{AllocError, Global};

/// What a commit's body says.
#[derive(Debug, Drop)]
pub struct CommitParts {
    pub tree: Name,
    pub parents: Vec<Name>,
    pub author: Ident,
    pub committer: Ident,
    pub message: Bytes,
}

// Adds a line.
fn add_field(body: &mut Vec<u8>, word: &[u8], value: &[u8]) -> Result<(), AllocError>
    ensures { OnOk result (body.new.items ≡ body.old.items ++ field word.now value.now []) }
{
    body.extend_from_slice(word)?;
    body.push(b' ')?;
    body.extend_from_slice(value)?;
    body.push(b'\n')?;
    Ok(())
}

// Adds a line with the digits of a name.
fn add_name(body: &mut Vec<u8>, word: &[u8], name: &Name) -> Result<(), AllocError>
    ensures body { OnOk result (body.new.items ≡ body.old.items ++ field word.now (hex name.now.0) []) }
    ensures name { is_name name.now.0 ≡ true }
{
    add_field(body, word, &digits(name.bytes()))
}

// Adds a line for each parent.
fn add_parents(body: &mut Vec<u8>, parents: &[Name]) -> Result<(), AllocError>
    ensures body { OnOk result
        (body.new.items ≡ body.old.items ++ parent_lines (map name_bytes parents.now) []) }
    ensures names { OnOk result (list_all is_name (map name_bytes parents.now) ≡ true) }
{
    for parent in parents {
        add_name(body, b"parent", parent)?;
    }
    Ok(())
}

// Adds the lines of the author and of the committer, an empty line and the message.
fn add_letter(body: &mut Vec<u8>, parts: &CommitParts) -> Result<(), AllocError>
    ensures letter { OnOk result
        (body.new.items ≡ body.old.items ++ letter_text (commit_of parts.now).letter) }
    ensures author { OnOk result (is_ident parts.now.author ≡ true) }
    ensures committer { OnOk result (is_ident parts.now.committer ≡ true) }
{
    add_field(body, b"author", parts.author.bytes())?;
    add_field(body, b"committer", parts.committer.bytes())?;
    body.push(b'\n')?;
    body.extend_from_slice(parts.message.bytes())?;
    Ok(())
}

// Room for most commits with a short message, which then take memory once.
const USUAL_BYTES: usize = 400;

/// The body of a commit (Git object format): the lines of the tree, of each parent, of the author and of the
/// committer, an empty line and the message.
pub fn encode_commit(alloc: Global, parts: &CommitParts) -> Result<Vec<u8>, AllocError>
    requires { length parts.now.parents.items ≤ 16 }
    ensures body { IfOk result (λ body. body.items ≡ commit_body (commit_of parts.now)) }
    ensures read_back { IfOk result (λ body. commit_from body.items ≡ Some (commit_of parts.now)) }
{
    let mut body = Vec::with_capacity(alloc, USUAL_BYTES)?;
    add_name(&mut body, b"tree", &parts.tree)?;
    add_parents(&mut body, &parts.parents)?;
    add_letter(&mut body, parts)?;
    Ok(body)
}
