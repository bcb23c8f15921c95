// Reading a certificate's text.
ghost use Rattle.std.specs.Prelude.{◌≡◌, ◌⊎◌, ◌<◌, ◌∷◌, ◌++◌, [], ℕ, Err, IfErr, IfOk};
ghost use Rattle.std.specs.Prelude.{OnOk};
ghost use Rattle.std.specs.Option.{option_map};
ghost use Rattle.git_objects.specs.Paths.{Bytes};
ghost use Rattle.object_store.specs.Errors.{object_value};
ghost use Rattle.object_store.specs.Objects.{find_named};
ghost use Rattle.proj_audit.specs.Reads.{AreNamed, AreOfText, mapped_objects, size_within};
ghost use Rattle.proj_audit.specs.Texts.{kind_from, object_from, objects};

use git_objects::{Kind, Name, cut, name_of};
use indexmap::IndexMap;
use object_store::ObjectRef;
use path_names::{is_digit, strip};
use std::alloc::{AllocError, Global};
use std::marker::Model;

/// Why a text is no certificate.
#[derive(Clone, Copy, Debug, PartialEq, Eq)]
pub enum TextFault {
    /// At the first byte of the line that doesn't fit, in bytes from the text's beginning.
    Syntax { at: u64 },
    OutOfMemory,
}

impl From<AllocError> for TextFault {
    ghost use Rattle.std.specs.Prelude.{◌≡◌};
    ghost use Rattle.proj_audit.specs.declared.reading.TextFault.TheVariants.{OutOfMemory};

    ghost from_gives = { λ _ fault. fault ≡ OutOfMemory };

    fn from(_e: AllocError) -> TextFault {
        TextFault::OutOfMemory
    }
}

fn kind_from(word: &[u8]) -> Option<Kind>
    ensures { result ≡ kind_from word.now }
{
    if word == b"blob".as_slice() {
        return Some(Kind::Blob);
    }
    if word == b"tree".as_slice() {
        return Some(Kind::Tree);
    }
    if word == b"commit".as_slice() {
        return Some(Kind::Commit);
    }
    None
}

// What 1 to 20 digits say, where it is at most so large. Twenty digits can say more than a u64 has: the number then
// stays at the end of the type, which is more than any length.
fn size_within(digits: &[u8], most: usize) -> Option<usize>
    requires { most < 18446744073709551615 }
    ensures { result ≡ size_within most digits.now }
{
    if digits.len() < 1 || digits.len() > 20 {
        return None;
    }
    let mut n: u64 = 0;
    for (k, x) in digits.iter().enumerate() {
        if !is_digit(*x) {
            return None;
        }
        n = n.saturating_mul(10).saturating_add(u64::from(*x - 48));
    }
    if n > most as u64 {
        return None;
    }
    Some(n as usize)
}

// The object at the front of a text, and what follows it.
fn next_object(text: &[u8]) -> Option<(ObjectRef<'_>, &[u8])>
    ensures { option_map (λ r. (object_value r.0, r.1.now)) result ≡ object_from text.now }
{
    let (line, rest) = cut(b'\n', text)?;
    let (word, digits) = cut(b' ', line)?;
    let kind = kind_from(word)?;
    let size = size_within(digits, rest.len())?;
    let (body, after) = rest.split_at(size);
    let after = strip(b"\n", after)?;
    Some((ObjectRef { kind, body }, after))
}

/// The objects of a certificate, of which the first of a name counts.
#[derive(Drop)]
pub struct Certificate<'a> {
    found: IndexMap<Name, ObjectRef<'a>>,
}

impl<'a> Model for Certificate<'a> {
    ghost use Rattle.std.specs.Prelude.{List};
    ghost use Rattle.object_store.specs.Objects.{Object};
    ghost use Rattle.proj_audit.specs.Reads.{AreNamed, mapped_objects};

    ghost Value = { List Object };

    ghost view = { λ c. mapped_objects c.found.entries };

    ghost invariant = { λ c. AreNamed c.found.entries };
}

impl<'a> Certificate<'a> {
    /// The object of that name. Needs no memory.
    pub fn get(&self, name: &Name) -> Option<ObjectRef<'a>>
        ensures { option_map object_value result ≡ find_named self.now name.now.0 }
    {
        match self.found.get(name) {
            None => None,
            Some(object) => Some(*object),
        }
    }
}

// Puts an object behind the others, unless one has its name.
fn add<'a>(
    found: &mut IndexMap<Name, ObjectRef<'a>>,
    object: ObjectRef<'a>,
) -> Result<(), AllocError>
    requires { AreNamed found.old.entries }
    ensures named { OnOk result (AreNamed found.new.entries) }
    ensures found { OnOk result ((n : Bytes) → find_named (mapped_objects found.new.entries) n
        ≡ find_named (mapped_objects found.old.entries ++ object_value object.entry ∷ []) n) }
{
    let name = name_of(object.kind, object.body);
    if found.get(&name).is_some() {
        return Ok(());
    }
    match found.insert(name, object) {
        Ok(_) => Ok(()),
        Err(_) => Err(AllocError),
    }
}

/// Reads a certificate's text, up to the first line that doesn't fit. Each object is named once, so that the time is
/// linear in the text.
pub fn read<'a>(alloc: Global, text: &'a [u8]) -> Result<Certificate<'a>, TextFault>
    ensures ok { IfOk result (AreOfText text.now) }
    ensures err { IfErr result (λ e. (e ≡ TextFault.OutOfMemory) ⊎ ((at : ℕ) × (e ≡ TextFault.Syntax at) ×
        (objects text.now ≡ Err at))) }
{
    let Some(rest) = strip(b"audit 1\n", text) else {
        return Err(TextFault::Syntax { at: 0 });
    };
    let mut found = IndexMap::new(alloc);
    let mut rest = rest;
    'objects: while !rest.is_empty() {
        let Some((object, after)) = next_object(rest) else {
            return Err(TextFault::Syntax {
                at: (text.len() - rest.len()) as u64,
            });
        };
        add(&mut found, object)?;
        rest = after;
    }
    Ok(Certificate { found })
}
