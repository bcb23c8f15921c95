// Ref names.
ghost use Rattle.std.specs.Prelude.{◌≡◌, ◌∷◌, [], ℕ, List, Some, nat_eq, refl, true, false, IfOk};
ghost use Rattle.std.specs.Prelude.{IsErrOf};
ghost use Rattle.std.proofs.Common.{rules};
ghost use Rattle.std.specs.Cmp.{partial_equiv_from_equiv};
ghost use Rattle.std.specs.Cmp.Lexicographic.{pointwise, slice_cmp, nat_list_eq_equiv, nat_list_cmp_total};
ghost use Rattle.std.specs.Cmp.Lexicographic.{texts_po, texts_ties};
ghost use Rattle.std.specs.Cmp.Rules.{hashing};
ghost use Rattle.std.specs.List.{list_all};
ghost use Rattle.std.specs.Ordering.{nat_cmp};
ghost use Rattle.path_names.specs.PathTexts.{parts};
ghost use Rattle.path_names.specs.RefNames.{is_ref_name, is_ref_byte, has_pair, is_ref_part};

use git_objects::limits::REF_BYTES;
use std::alloc::{AllocError, Global};
use std::cmp::Ordering;
use std::hash::{Hash, Hasher};
use std::marker::Model;

// Bytes of the shortest ref name.
const SHORTEST: usize = 6;

/// Why a text is not read as a ref name.
#[derive(Clone, Copy, Debug, PartialEq, Eq)]
pub enum RefFault {
    Bad,
    OutOfMemory,
}

/// The full name of a ref, as `refs/heads/main`, by the rules of git-check-ref-format(1).
#[derive(Debug, Drop)]
pub struct RefName {
    inner: Vec<u8>,
}

impl Model for RefName {
    ghost Value = { List ℕ };

    ghost view = { λ r. r.inner.items };

    ghost invariant = { λ r. is_ref_name r.inner.items ≡ true };
}

impl RefName {
    /// Bad where the text is no ref name.
    pub fn parse(alloc: Global, text: &[u8]) -> Result<RefName, RefFault>
        ensures ok { IfOk result (λ name. (name ≡ text.now) × (is_ref_name text.now ≡ true)) }
        ensures bad { IsErrOf result RefFault.Bad → is_ref_name text.now ≡ false }
        ensures refused { is_ref_name text.now ≡ false → IsErrOf result RefFault.Bad }
    {
        if !is_ref_name(text) {
            return Err(RefFault::Bad);
        }
        match text.to_vec(alloc) {
            Ok(inner) => Ok(RefName { inner }),
            Err(_) => Err(RefFault::OutOfMemory),
        }
    }

    pub fn text(&self) -> &[u8]
        ensures text { result.now ≡ self.now }
        ensures valid { is_ref_name self.now ≡ true }
    {
        &self.inner
    }

    pub fn copy(&self, alloc: Global) -> Result<RefName, AllocError>
        ensures { IfOk result (λ copy. copy ≡ self.now) }
    {
        Ok(RefName {
            inner: self.inner.to_vec(alloc)?,
        })
    }
}

impl PartialEq for RefName {
    ghost eq = { pointwise nat_eq };

    ghost laws = { partial_equiv_from_equiv nat_list_eq_equiv };

    fn eq(&self, other: &RefName) -> bool {
        self.text() == other.text()
    }
}

impl Eq for RefName {
    ghost laws = { nat_list_eq_equiv };
}

// Ref names stand in byte order.
impl PartialOrd for RefName {
    ghost partial_cmp = { λ a b. Some (slice_cmp nat_cmp a b) };

    ghost laws = { texts_po };

    fn partial_cmp(&self, other: &RefName) -> Option<Ordering> {
        Some(self.cmp(other))
    }
}

impl Ord for RefName {
    ghost cmp = { slice_cmp nat_cmp };

    ghost total = { nat_list_cmp_total };

    ghost matches_partial_cmp = { λ a b. refl };

    ghost matches_eq = { texts_ties };

    fn cmp(&self, other: &RefName) -> Ordering {
        self.text().cmp(other.text())
    }
}

// One write of all bytes: a map keyed by ref names hashes each of them once.
impl Hash for RefName {
    ghost hash_input = { λ r. r ∷ [] };

    ghost respects_eq = { Prim.search (hashing, rules) };

    fn hash<H: Hasher>(&self, state: &mut H) {
        state.write(self.text());
    }
}

/// Whether the bytes are a ref name. It takes no memory.
#[tactic(auto, unfolding(crate::specs::RefNames::is_ref_name))]
pub fn is_ref_name(t: &[u8]) -> bool
    ensures { result ≡ is_ref_name t.now }
{
    if t.len() < SHORTEST {
        return false;
    }
    if t.len() > REF_BYTES {
        return false;
    }
    if !t.starts_with(b"refs/") {
        return false;
    }
    if !has_ref_bytes(t) {
        return false;
    }
    if has_pair(b'.', b'.', t) {
        return false;
    }
    if has_pair(b'@', b'{', t) {
        return false;
    }
    if has_pair(b'/', b'/', t) {
        return false;
    }
    if t.ends_with(b"/") {
        return false;
    }
    if t.ends_with(b".") {
        return false;
    }
    has_ref_parts(t)
}

// Whether a ref name may hold the byte.
fn is_ref_byte(x: u8) -> bool
    ensures { result ≡ is_ref_byte x }
{
    x >= 33 && !matches!(x, 127 | b'~' | b'^' | b':' | b'?' | b'*' | b'[' | b'\\')
}

// Whether a ref name may hold each byte.
fn has_ref_bytes(t: &[u8]) -> bool
    ensures { result ≡ list_all is_ref_byte t.now }
{
    t.iter().all(|x| is_ref_byte(*x))
}

// Whether a stands somewhere directly before b.
fn has_pair(a: u8, b: u8, t: &[u8]) -> bool
    ensures { result ≡ has_pair a b t.now }
{
    for i in 1..t.len() {
        if t[i - 1] == a && t[i] == b {
            return true;
        }
    }
    false
}

// Whether a ref name may hold the part between slashes.
fn is_ref_part(t: &[u8]) -> bool
    ensures { result ≡ is_ref_part t.now }
{
    !t.starts_with(b".") && !t.ends_with(b".lock")
}

// Whether a ref name may hold each part between slashes.
fn has_ref_parts(t: &[u8]) -> bool
    ensures { result ≡ list_all is_ref_part (parts t.now) }
{
    t.split(|x| *x == b'/').all(|part| is_ref_part(part))
}
