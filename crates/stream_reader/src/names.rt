// How lines name refs, commits and people.
ghost use Rattle.std.specs.Prelude.{◌≡◌, replicate};
ghost use Rattle.git_objects.specs.Paths.{same_bytes};
ghost use Rattle.git_objects.specs.CommitBodies.{digits_name};
ghost use Rattle.stream_lex.specs.Views.{maybe_bytes};
ghost use Rattle.stream_reader.specs.Names.{refname, tag_name, ident, some_name, without_zero, target, name_of};
ghost use Rattle.stream_reader.specs.Views.{Tells, same};

use crate::halt::Halt;
use crate::words::mark;
use crate::{Feature, StreamFault, Target};
use git_objects::{Ident, IdentFault, Name};
use path_names::{RefFault, RefName};
use std::alloc::Global;
use tag_objects::{TagName, TagNameFault};

// A ref name; at is the place of the line.
pub fn refname(alloc: Global, at: u64, text: &[u8]) -> Result<RefName, Halt>
    ensures { Tells same result (refname at text.now) }
{
    match RefName::parse(alloc, text) {
        Ok(name) => Ok(name),
        Err(RefFault::Bad) => Err(Halt::Fault(StreamFault::Syntax { at })),
        Err(RefFault::OutOfMemory) => Err(Halt::Memory),
    }
}

// The name of a tag, which must be there; at is the place of the line.
pub fn tag_name<'a>(alloc: Global, at: u64, text: Option<&'a [u8]>) -> Result<TagName, Halt>
    ensures { Tells same result (tag_name at (maybe_bytes text.entry)) }
{
    let Some(text) = text else {
        return Err(Halt::Fault(StreamFault::Syntax { at }));
    };
    match TagName::parse(alloc, text) {
        Ok(name) => Ok(name),
        Err(TagNameFault::Bad) => Err(Halt::Fault(StreamFault::Syntax { at })),
        Err(TagNameFault::OutOfMemory) => Err(Halt::Memory),
    }
}

// An ident; at is the place of the line.
pub fn ident(alloc: Global, at: u64, text: &[u8]) -> Result<Ident, Halt>
    ensures { Tells same result (ident at text.now) }
{
    match Ident::parse(alloc, text) {
        Ok(ident) => Ok(ident),
        Err(IdentFault::Bad) => Err(Halt::Fault(StreamFault::Syntax { at })),
        Err(IdentFault::OutOfMemory) => Err(Halt::Memory),
    }
}

// The name that 40 digits of either case write.
pub fn digits_name(text: &[u8]) -> Option<Name>
    ensures { result ≡ name_of (digits_name text.now) }
{
    Name::from_hex(text)
}

// Whether all 20 bytes are zero.
fn is_zero(name: &Name) -> bool
    ensures { result ≡ same_bytes name.now.0 (replicate 20 0) }
{
    name.bytes() == [0u8; 20].as_slice()
}

// A name that isn't zero; at is the place of the line.
pub fn some_name(at: u64, name: Name) -> Result<Name, Halt>
    ensures { Tells same result (some_name at name.0) }
{
    if is_zero(&name) {
        return Err(Halt::Fault(StreamFault::Unsupported {
            at,
            what: Feature::ZeroName,
        }));
    }
    Ok(name)
}

// A text without a `^0` at its end.
fn without_zero(text: &[u8]) -> &[u8]
    ensures { result.now ≡ without_zero text.now }
{
    if text.ends_with(b"^0") {
        return &text[..text.len() - 2];
    }
    text
}

// A commit's name; at is the place of the line.
#[tactic(auto, unfolding(crate::specs::Names::target))]
pub fn target(alloc: Global, at: u64, text: &[u8]) -> Result<Target, Halt>
    ensures { Tells same result (target at text.now) }
{
    if text.starts_with(b":") {
        return match mark(text) {
            None => Err(Halt::Fault(StreamFault::Syntax { at })),
            Some(n) => Ok(Target::Mark(n)),
        };
    }
    match digits_name(text) {
        Some(name) => {
            let name = some_name(at, name)?;
            Ok(Target::Digits(name))
        }
        None => {
            let name = refname(alloc, at, without_zero(text))?;
            Ok(Target::Ref(name))
        }
    }
}
