// Names of objects.
ghost use Rattle.std.specs.Prelude.{true, ◌≡◌, ◌↔◌, ◌≤◌, ◌∷◌, ◌++◌, [], IsSome, IsTrue};
ghost use Rattle.std.specs.Prelude.{drop, length, replicate, take};
ghost use Rattle.std.proofs.Common.{rules};
ghost use Rattle.std.specs.Cmp.Rules.{hashing};
ghost use Rattle.std.specs.List.{AllPass};
ghost use Rattle.std.specs.Option.{option_map};
ghost use Rattle.hex.specs.Hex.{is_hex_digit};
ghost use Rattle.git_objects.specs.Paths.{is_bytes};
ghost use Rattle.std.specs.Fmt.{decimal};
ghost use Rattle.git_objects.specs.Names.{kind_word, name};
ghost use Rattle.git_objects.specs.Commits.{hex};
ghost use Rattle.git_objects.specs.Bodies.{is_name};
ghost use Rattle.git_objects.specs.CommitBodies.{digits_name};
ghost use Rattle.git_objects.specs.Parts.{name_bytes};

use crate::Kind;
use itoa::write_digits;
use sha1::Sha1;
use std::hash::{Hash, Hasher};

/// The 20 bytes of an object's name.
#[derive(Clone, Copy, Debug, PartialEq, Eq)]
pub struct Name(pub [u8; 20]);

// One write of eight bytes. A name is the value of a hash by itself, so these tell nearly all names apart, and they are
// hashed much faster than 20.
impl Hash for Name {
    ghost hash_input = { λ n. take 8 n.0 ∷ [] };

    ghost respects_eq = { Prim.search (hashing, rules) };

    fn hash<H: Hasher>(&self, state: &mut H) {
        state.write(&self.0[..8]);
    }
}

impl Name {
    pub fn bytes(&self) -> &[u8]
        ensures bytes { result.now ≡ self.now.0 }
        ensures name { is_name self.now.0 ≡ true }
    {
        in_range(&self.0)
    }

    /// The 40 lower-case digits.
    pub fn hex(&self) -> [u8; 40]
        ensures { result ≡ hex self.now.0 }
    {
        digits(self.bytes())
    }

    /// The name that 40 digits of either case write.
    pub fn from_hex(text: &[u8]) -> Option<Name>
        ensures value { option_map name_bytes result ≡ digits_name text.now }
        ensures digits { IsSome result ↔ ((length text.now ≡ 40) × AllPass is_hex_digit text.now) }
    {
        let mut bytes = [0u8; 20];
        match hex::decode_to_slice(text, &mut bytes) {
            Ok(()) => Some(Name(bytes)),
            Err(_) => None,
        }
    }

    /// Whether all 20 bytes are zero: Git's name of no object.
    pub fn is_zero(&self) -> bool
        ensures { IsTrue result ↔ (self.now.0 ≡ replicate 20 0) }
    {
        self.0 == [0u8; 20]
    }
}

// The digits of 20 bytes.
pub fn digits(bytes: &[u8]) -> [u8; 40]
    requires { length bytes.now ≡ 20 }
    ensures { result ≡ hex bytes.now }
{
    let mut digits = [0u8; 40];
    let written = hex::encode_to_slice(bytes, &mut digits);
    prove!(written.is_ok());
    digits
}

// A header takes as many bytes at most: `commit `, 20 digits and the zero byte.
const HEADER_BYTES: usize = 28;

// Writes a word so that it ends at `end`, and returns where it starts.
#[inline(always)]
fn put_before(word: &[u8], buffer: &mut [u8], end: usize) -> usize
    requires word { length word.now ≤ end }
    requires end { end ≤ length buffer.old }
    ensures start { result ≤ length buffer.old }
    ensures written { drop result buffer.new ≡ word.now ++ drop end buffer.old }
{
    let start = end - word.len();
    buffer[start..end].copy_from_slice(word);
    start
}

// Writes the header of an object of that kind and length at the end of a buffer, and returns where it starts.
#[inline(always)]
fn put_header(kind: Kind, len: u64, buffer: &mut [u8]) -> usize
    requires { buffer.old ≡ replicate 28 0 }
    ensures start { result ≤ length buffer.new }
    ensures written { drop result buffer.new ≡ kind_word kind ++ (32 ∷ []) ++ decimal len ++ (0 ∷ []) }
{
    let digits = write_digits(len, buffer, HEADER_BYTES - 1);
    match kind {
        Kind::Blob => put_before(b"blob ", buffer, digits),
        Kind::Tree => put_before(b"tree ", buffer, digits),
        Kind::Commit => put_before(b"commit ", buffer, digits),
    }
}

/// The name of an object of that kind with that body: the SHA-1 of the kind, a space, the body's length in decimal, a
/// zero byte and the body (Git object format, FIPS 180-4).
pub fn name_of(kind: Kind, body: &[u8]) -> Name
    ensures { result.0 ≡ name kind body.now }
{
    let mut buffer = [0u8; HEADER_BYTES];
    let start = put_header(kind, body.len() as u64, &mut buffer);
    let (_, header) = buffer.split_at(start);
    let mut hasher = Sha1::new();
    hasher.update(header);
    hasher.update(body);
    Name(hasher.finalize())
}

/// A name has 20 bytes, each below 256. The call does nothing: a proof cites it.
pub fn name_bytes_law(name: &Name)
    ensures name { is_name name.now.0 ≡ true }
{
    let _bytes = in_range(&name.0);
}

// The 20 bytes, of which the proof learns that each is below 256.
fn in_range(bytes: &[u8]) -> &[u8]
    ensures same { result.now ≡ bytes.now }
    ensures bytes { is_bytes bytes.now ≡ true }
{
    bytes
}
