// What a commit's body says, seen in place.
ghost use Rattle.std.specs.Prelude.{◌≡◌, ◌<◌, ◌≤◌, true, false, None, Some, IfSome, IfNone, length};
ghost use Rattle.std.specs.Prelude.{slice_get, slice_index};
ghost use Rattle.std.specs.List.{list_all};
ghost use Rattle.std.specs.Option.{option_map};
ghost use Rattle.hex.specs.Hex.{lower_digits};
ghost use Rattle.git_objects.specs.Bodies.{is_name};
ghost use Rattle.git_objects.specs.Commits.{Commit};
ghost use Rattle.git_objects.specs.CommitBodies.{commit_from, field_from, ident_field, is_parent, letter_from};
ghost use Rattle.git_objects.specs.CommitBodies.{lower_name, name_field, rest_from, strip};
ghost use Rattle.git_objects.specs.LowerDigits.{is_lower};
ghost use Rattle.git_objects.specs.ParentLines.{parents_at, with_parents};
ghost use Rattle.git_objects.specs.Parts.{name_bytes};
ghost use Rattle.git_objects.specs.Views.{letter_value};

use crate::ident::{cut, is_ident};
use crate::{Name, name_bytes_law};
use std::marker::Model;

// What a commit says beside its tree and its parents.
#[derive(Clone, Copy, Debug)]
struct LetterView<'a> {
    author: &'a [u8],
    committer: &'a [u8],
    message: &'a [u8],
}

/// What the body of a commit says.
#[derive(Debug, Drop)]
pub struct CommitView<'a> {
    tree: Name,
    // The body from the first line of a parent on.
    parents: &'a [u8],
    count: usize,
    letter: LetterView<'a>,
}

impl<'a> Model for CommitView<'a> {
    ghost use Rattle.std.specs.Prelude.{◌≡◌, ◌≤◌, true};
    ghost use Rattle.std.specs.List.{list_all};
    ghost use Rattle.git_objects.specs.Bodies.{is_name};
    ghost use Rattle.git_objects.specs.Commits.{Commit};
    ghost use Rattle.git_objects.specs.ParentLines.{parents_at};
    ghost use Rattle.git_objects.specs.Views.{letter_value};

    ghost Value = { Commit };

    ghost view = { λ c. record {
      tree = c.tree.0;
      parents = parents_at c.count c.parents.now;
      letter = letter_value c.letter;
    } };

    ghost invariant = { λ c. (c.count ≤ 16)
        × (list_all is_name (parents_at c.count c.parents.now) ≡ true) };
}

impl<'a> CommitView<'a> {
    /// What a body in Git's canonical form says; None where the bytes are none. Needs no memory.
    pub fn of(body: &'a [u8]) -> Option<CommitView<'a>>
        ensures commit { result ≡ commit_from body.now }
        ensures few { IfSome result (λ c. length c.parents ≤ 16) }
    {
        let (tree, parents) = name_field(b"tree", body)?;
        let (count, rest) = parent_lines(parents)?;
        let letter = letter(rest)?;
        Some(CommitView {
            tree,
            parents,
            count,
            letter,
        })
    }

    pub fn tree(&self) -> Name
        ensures { result.0 ≡ self.now.tree }
    {
        self.tree
    }

    pub fn parent_count(&self) -> usize
        ensures count { result ≡ length self.now.parents }
        ensures few { result ≤ 16 }
    {
        self.count
    }

    pub fn parent(&self, i: usize) -> Option<Name>
        ensures { option_map name_bytes result ≡ slice_get self.now.parents i }
    {
        if i >= self.count {
            return None;
        }
        Name::from_hex(&self.parents[48 * i + 7..48 * i + 47])
    }

    /// An ident, as git-fast-import(1) has it.
    pub fn author(&self) -> &'a [u8]
        ensures { result.now ≡ self.now.letter.author }
    {
        self.letter.author
    }

    /// An ident, as git-fast-import(1) has it.
    pub fn committer(&self) -> &'a [u8]
        ensures { result.now ≡ self.now.letter.committer }
    {
        self.letter.committer
    }

    pub fn message(&self) -> &'a [u8]
        ensures { result.now ≡ self.now.letter.message }
    {
        self.letter.message
    }
}

/// The name of the tree in a commit's body, as the caller knows it to be one. What stands behind the line of the tree
/// isn't read.
pub fn tree_in_commit(body: &[u8]) -> Option<Name>
    ensures { (c : Commit) → commit_from body.now ≡ Some c → option_map name_bytes result ≡ Some c.tree }
{
    match name_field(b"tree", body) {
        None => None,
        Some((tree, _)) => Some(tree),
    }
}

fn strip<'a>(word: &[u8], text: &'a [u8]) -> Option<&'a [u8]>
    ensures { option_map (λ r. r.now) result ≡ strip word.now text.now }
{
    text.strip_prefix(word)
}

// The value of a line that begins with a word and a space, and what follows the line.
#[tactic(auto, using(crate::proofs::CommitViews::field_steps))]
fn field<'a>(word: &[u8], text: &'a [u8]) -> Option<(&'a [u8], &'a [u8])>
    ensures { option_map (λ r. (r.0.now, r.1.now)) result ≡ field_from word.now text.now }
{
    let rest = strip(word, text)?;
    let rest = strip(b" ", rest)?;
    cut(b'\n', rest)
}

// The value of a digit. Git writes no upper-case letter. Digits of names are as if drawn at random, so `if` only
// chooses two numbers, for which the processor doesn't have to guess a jump.
#[inline(always)]
fn lower_digit(digit: u8) -> Option<u8>
    ensures none { IfNone result (is_lower digit ≡ false) }
    ensures value { IfSome result (λ v. (v < 16) × (slice_index lower_digits v ≡ digit)) }
{
    let (zero, most) = if digit < 97 { (48, 9) } else { (87, 15) };
    let value = digit.wrapping_sub(zero);
    if value <= most { Some(value) } else { None }
}

// The name that 40 lower-case digits write.
fn lower_name(text: &[u8]) -> Option<Name>
    ensures { option_map name_bytes result ≡ lower_name text.now }
{
    if text.len() != 40 {
        return None;
    }
    let mut bytes = [0u8; 20];
    'pairs: for i in 0..20 {
        let Some(high) = lower_digit(text[2 * i]) else {
            return None;
        };
        let Some(low) = lower_digit(text[2 * i + 1]) else {
            return None;
        };
        bytes[i] = high * 16 + low;
    }
    let name = Name(bytes);
    name_bytes_law(&name);
    Some(name)
}

fn name_field<'a>(word: &[u8], text: &'a [u8]) -> Option<(Name, &'a [u8])>
    ensures { option_map (λ r. (name_bytes r.0, r.1.now)) result ≡ name_field word.now text.now }
{
    let (digits, rest) = field(word, text)?;
    let name = lower_name(digits)?;
    Some((name, rest))
}

fn ident_field<'a>(word: &[u8], text: &'a [u8]) -> Option<(&'a [u8], &'a [u8])>
    ensures { option_map (λ r. (r.0.now, r.1.now)) result ≡ ident_field word.now text.now }
{
    let (ident, rest) = field(word, text)?;
    if is_ident(ident) {
        Some((ident, rest))
    } else {
        None
    }
}

// The author, the committer, an empty line and the message.
fn letter(text: &[u8]) -> Option<LetterView<'_>>
    ensures { option_map letter_value result ≡ letter_from text.now }
{
    let (author, rest) = ident_field(b"author", text)?;
    let (committer, rest) = ident_field(b"committer", rest)?;
    let message = strip(b"\n", rest)?;
    Some(LetterView {
        author,
        committer,
        message,
    })
}

fn is_parent(text: &[u8]) -> bool
    ensures { result ≡ is_parent text.now }
{
    strip(b"parent ", text).is_some()
}

// How many lines of parents stand first, and what follows them.
fn parent_lines(text: &[u8]) -> Option<(usize, &[u8])>
    ensures none { IfNone result (rest_from 16 text.now ≡ None) }
    ensures few { IfSome result (λ r. r.0 ≤ 16) }
    ensures names { IfSome result (λ r. list_all is_name (parents_at r.0 text.now) ≡ true) }
    ensures rest { IfSome result
        (λ r. rest_from 16 text.now ≡ with_parents (parents_at r.0 text.now) (letter_from r.1.now)) }
{
    let mut count = 0;
    let mut rest = text;
    'parents: while count < 16 && is_parent(rest) {
        let (_, after) = name_field(b"parent", rest)?;
        count += 1;
        rest = after;
    }
    Some((count, rest))
}
