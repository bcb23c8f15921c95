// Values that words stand for.
use crate::{Fault, Texts, Word, add_digits};
use git_objects::{Component, Name, is_component};
use path_names::{Path, RefFault, RefName};
use std::alloc::Global;

/// A name as 20 bytes or 40 digits.
pub fn name_of(texts: &Texts, word: &Word) -> Result<Name, Fault> {
    read_name(&texts.word(word)?).ok_or(Fault::BadLine)
}

fn read_name(bytes: &[u8]) -> Option<Name> {
    match bytes.split_first_chunk::<20>() {
        Some((name, [])) => Some(Name(*name)),
        _ => Name::from_hex(bytes),
    }
}

/// The digits of a name.
pub fn digits_of(alloc: Global, name: &Name) -> Result<String, Fault> {
    let mut digits = String::new(alloc);
    add_digits(&mut digits, name)?;
    Ok(digits)
}

/// A path of any length: components between slashes.
pub fn path_of(alloc: Global, texts: &Texts, word: &Word) -> Result<Path, Fault> {
    path_of_parts(&components_of(alloc, &texts.word(word)?)?)
}

fn components_of(alloc: Global, text: &[u8]) -> Result<Vec<Component>, Fault> {
    let mut components = Vec::new(alloc);
    for part in text.split(|byte| *byte == b'/') {
        add_component(&mut components, part)?;
    }
    Ok(components)
}

fn add_component(components: &mut Vec<Component>, part: &[u8]) -> Result<(), Fault> {
    if !is_component(part) {
        return Err(Fault::BadLine);
    }
    let bytes = part.to_vec(*components.allocator())?;
    Ok(components.push(Component::of(bytes))?)
}

fn path_of_parts(components: &Vec<Component>) -> Result<Path, Fault> {
    if components.is_empty() {
        return Err(Fault::BadLine);
    }
    Path::of_parts(*components.allocator(), components, &[]).map_err(Fault::from)
}

/// The name of a ref.
pub fn ref_name_of(alloc: Global, word: &Word) -> Result<RefName, Fault> {
    match RefName::parse(alloc, &word.bytes) {
        Ok(refname) => Ok(refname),
        Err(RefFault::Bad) => Err(Fault::BadLine),
        Err(RefFault::OutOfMemory) => Err(Fault::OutOfMemory),
    }
}
