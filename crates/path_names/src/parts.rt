// The parts of a text between slashes.
ghost use Rattle.std.specs.Prelude.{◌≡◌, ◌==◌, [], ◌∷◌, List, ℕ, length, position, true};
ghost use Rattle.std.specs.Prelude.{IfOk, OnOk, MatchResult, MatchOption, Ok, Err};
ghost use Rattle.std.specs.List.{list_all};
ghost use Rattle.std.specs.Option.{option_copied};
ghost use Rattle.git_objects.specs.Paths.{is_component};
ghost use Rattle.path_names.specs.PathTexts.{parts, path_of, parts_left};

use crate::PathFault;
use git_objects::limits::{COMPONENT_BYTES, PATH_BYTES, PATH_COMPONENTS};
use git_objects::{Component, is_component};
use std::alloc::{AllocError, Global};
use std::marker::Model;

// The parts of a text that are still to come.
#[derive(Drop)]
pub struct Parts<'a> {
    rest: Option<&'a [u8]>,
}

impl<'a> Model for Parts<'a> {
    ghost Value = { List (List ℕ) };

    ghost view = { λ p. parts_left (option_copied p.rest) };
}

impl<'a> Parts<'a> {
    pub fn of(text: &'a [u8]) -> Parts<'a>
        ensures { result ≡ parts text.now }
    {
        Parts { rest: Some(text) }
    }

    // The next part, None behind the last.
    pub fn next(&mut self) -> Option<&'a [u8]>
        ensures { MatchOption result (self.old ≡ []) (λ part. self.old ≡ part.now ∷ self.new) }
    {
        let text = self.rest?;
        match slash_in(text) {
            Some(end) => {
                self.rest = Some(&text[end + 1..]);
                Some(&text[..end])
            }
            None => {
                self.rest = None;
                Some(text)
            }
        }
    }
}

// Where the first slash is.
fn slash_in(text: &[u8]) -> Option<usize>
    ensures { result ≡ position (λ x. x == 47) text.now }
{
    text.iter().position(|x| *x == b'/')
}

// The number of the components, or the first fault.
#[tactic(auto, unfolding(crate::specs::PathTexts::path_of))]
pub fn count_parts(text: &[u8]) -> Result<usize, PathFault>
    ensures path { MatchResult result (λ _. path_of text.now ≡ Ok (parts text.now))
        (λ fault. path_of text.now ≡ Err fault) }
    ensures components { OnOk result (list_all is_component (parts text.now) ≡ true) }
    ensures count { IfOk result (λ count. count ≡ length (parts text.now)) }
{
    if text.is_empty() {
        return Err(PathFault::Empty);
    }
    let mut count = 0;
    let mut short = true;
    let mut parts = Parts::of(text);
    while let Some(part) = parts.next() {
        if !is_component(part) {
            return Err(PathFault::BadComponent);
        }
        short &= part.len() <= COMPONENT_BYTES;
        count += 1;
    }
    if !short {
        return Err(PathFault::LongComponent);
    }
    if count > PATH_COMPONENTS {
        return Err(PathFault::TooDeep);
    }
    if text.len() > PATH_BYTES {
        return Err(PathFault::TooLong);
    }
    Ok(count)
}

// Copies of the parts of a text that are components.
pub fn components_of(alloc: Global, text: &[u8], count: usize) -> Result<Vec<Component>, AllocError>
    requires { list_all is_component (parts text.now) ≡ true }
    ensures { IfOk result (λ components. components.items ≡ parts text.now) }
{
    let mut components = Vec::with_capacity(alloc, count)?;
    let mut parts = Parts::of(text);
    while let Some(part) = parts.next() {
        components.push(Component::of(part.to_vec(alloc)?))?;
    }
    Ok(components)
}
