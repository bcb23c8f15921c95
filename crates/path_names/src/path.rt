// Paths.
ghost use Rattle.std.specs.Prelude.{◌≡◌, ◌⊎◌, ◌++◌, ◌+◌, ◌<◌, ℕ, List, length, true, IfOk};
ghost use Rattle.std.specs.Prelude.{OnOk, MatchResult, Ok};
ghost use Rattle.std.specs.Prelude.{Err};
ghost use Rattle.std.specs.List.{list_all};
ghost use Rattle.std.specs.Result.{is_ok};
ghost use Rattle.git_objects.specs.Paths.{is_component, is_path, text};
ghost use Rattle.path_names.specs.PathTexts.{ok_path, path_of};

use crate::parts::{components_of, count_parts};
use git_objects::Component;
use std::alloc::{AllocError, Global};
use std::marker::Model;
use thiserror::Error;

/// Why a text is not read as a path.
#[derive(Clone, Copy, Debug, PartialEq, Eq, Error)]
pub enum PathFault {
    /// The text is empty.
    #[error("empty path")]
    Empty,
    /// A part between slashes is no component.
    #[error("bad component")]
    BadComponent,
    /// A component has more bytes than `limits::COMPONENT_BYTES`.
    #[error("long component")]
    LongComponent,
    /// There are more components than `limits::PATH_COMPONENTS`.
    #[error("too many components")]
    TooDeep,
    /// The text has more bytes than `limits::PATH_BYTES`.
    #[error("path too long")]
    TooLong,
    #[error("out of memory")]
    OutOfMemory,
}

/// A path from the root of a tree, of one or more components.
#[derive(Debug, Drop)]
pub struct Path {
    components: Vec<Component>,
}

impl Model for Path {
    ghost Value = { List (List ℕ) };

    ghost view = { λ p. p.components.items };

    ghost invariant = { λ p. is_path p.components.items ≡ true };
}

impl Path {
    /// Reads components between slashes.
    pub fn parse(alloc: Global, text: &[u8]) -> Result<Path, PathFault>
        ensures { MatchResult result (λ path. path_of text.now ≡ Ok path)
            (λ fault. (fault ≡ PathFault.OutOfMemory) ⊎ (path_of text.now ≡ Err fault)) }
    {
        let count = count_parts(text)?;
        match components_of(alloc, text, count) {
            Ok(components) => Ok(Path { components }),
            Err(_) => Err(PathFault::OutOfMemory),
        }
    }

    /// The components of both in order, without the limits of `parse`.
    pub fn of_parts(
        alloc: Global,
        head: &[Component],
        tail: &[Component],
    ) -> Result<Path, AllocError>
        requires { 0 < length head.now + length tail.now }
        ensures { IfOk result (λ path. path ≡ head.now ++ tail.now) }
    {
        let mut components = Vec::with_capacity(alloc, head.len() + tail.len())?;
        add_copies(&mut components, alloc, head)?;
        add_copies(&mut components, alloc, tail)?;
        Ok(Path { components })
    }

    /// The path of these components, without the limits of `parse`. Needs no memory.
    pub fn of(components: Vec<Component>) -> Path
        requires { is_path components.items ≡ true }
        ensures { result ≡ components.items }
    {
        Path { components }
    }

    /// Its components, without a copy.
    pub fn into_components(self) -> Vec<Component>
        ensures components { result.items ≡ self }
        ensures path { is_path self ≡ true }
    {
        self.components
    }

    pub fn components(&self) -> &[Component]
        ensures components { result.now ≡ self.now }
        ensures path { is_path self.now ≡ true }
    {
        &self.components
    }

    /// The components joined with slashes.
    pub fn text(&self, alloc: Global) -> Result<Vec<u8>, AllocError>
        ensures { IfOk result (λ bytes. bytes.items ≡ text self.now) }
    {
        joined_text(alloc, &self.components)
    }

    /// This path and then the tail.
    pub fn joined(&self, alloc: Global, tail: &Path) -> Result<Path, AllocError>
        ensures { IfOk result (λ path. path ≡ self.now ++ tail.now) }
    {
        Path::of_parts(alloc, &self.components, &tail.components)
    }

    pub fn copy(&self, alloc: Global) -> Result<Path, AllocError>
        ensures { IfOk result (λ copy. copy ≡ self.now) }
    {
        Path::of_parts(alloc, &self.components, &[])
    }
}

/// Whether a text is read as a path. Takes no memory.
pub fn is_path_text(text: &[u8]) -> bool
    ensures { result ≡ is_ok (path_of text.now) }
{
    count_parts(text).is_ok()
}

/// The path that a text names; None where it names none.
pub fn path_in(alloc: Global, text: &[u8]) -> Result<Option<Path>, AllocError>
    ensures { IfOk result (λ path. path ≡ ok_path (path_of text.now)) }
{
    match Path::parse(alloc, text) {
        Ok(path) => Ok(Some(path)),
        Err(PathFault::OutOfMemory) => Err(AllocError),
        Err(_) => Ok(None),
    }
}

// Adds copies of the components.
fn add_copies(
    onto: &mut Vec<Component>,
    alloc: Global,
    from: &[Component],
) -> Result<(), AllocError>
    ensures added { OnOk result (onto.new.items ≡ onto.old.items ++ from.now) }
    ensures components { OnOk result (list_all is_component from.now ≡ true) }
{
    for component in from {
        onto.push(Component::of(component.bytes().to_vec(alloc)?))?;
    }
    Ok(())
}

// The components joined with slashes.
fn joined_text(alloc: Global, components: &[Component]) -> Result<Vec<u8>, AllocError>
    ensures { IfOk result (λ bytes. bytes.items ≡ text components.now) }
{
    let mut text = Vec::with_capacity(alloc, room_for(components))?;
    for (i, component) in components.iter().enumerate() {
        if i > 0 {
            text.push(b'/')?;
        }
        text.extend_from_slice(component.bytes())?;
    }
    Ok(text)
}

// Room for each component and a slash, so that the text takes memory once.
fn room_for(components: &[Component]) -> usize {
    let mut room = 0usize;
    for component in components {
        room = room
            .saturating_add(component.bytes().len())
            .saturating_add(1);
    }
    room
}
