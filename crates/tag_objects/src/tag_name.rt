// Names of annotated tags.
ghost use Rattle.std.specs.Prelude.{◌≡◌, ◌++◌, ◌∷◌, [], ℕ, List, Some, codes, drop, nat_eq, refl};
ghost use Rattle.std.specs.Prelude.{true, false, IfOk, IsErrOf};
ghost use Rattle.std.specs.Cmp.{partial_equiv_from_equiv};
ghost use Rattle.std.specs.Cmp.Lexicographic.{pointwise, slice_cmp, nat_list_eq_equiv, nat_list_cmp_total};
ghost use Rattle.std.specs.Cmp.Lexicographic.{texts_po, texts_ties};
ghost use Rattle.std.specs.Ordering.{nat_cmp};
ghost use Rattle.path_names.specs.RefNames.{is_ref_name};
ghost use Rattle.tag_objects.specs.TagNames.{is_tag_name, tag_ref};

use path_names::is_ref_name;
use std::alloc::{AllocError, Global};
use std::cmp::Ordering;
use std::marker::Model;

// What stands before a tag's name in the name of its ref, and its length.
const FRONT: &[u8] = b"refs/tags/";

const FRONT_BYTES: usize = 10;

/// Why a text is not read as the name of a tag.
#[derive(Clone, Copy, Debug, PartialEq, Eq)]
pub enum TagNameFault {
    /// The text is no name of a tag.
    Bad,
    OutOfMemory,
}

/// The name of an annotated tag, as `v1`: `refs/tags/` and it are a ref name by git-check-ref-format(1).
#[derive(Debug, Drop)]
pub struct TagName {
    // The name of the ref.
    full: Vec<u8>,
}

impl Model for TagName {
    ghost use Rattle.std.specs.Prelude.{◌≡◌, ◌++◌, ℕ, List, codes, drop, true};
    ghost use Rattle.path_names.specs.RefNames.{is_ref_name};

    ghost Value = { List ℕ };

    ghost view = { λ t. drop 10 t.full.items };

    ghost invariant = { λ t. (t.full.items ≡ codes "refs/tags/" ++ drop 10 t.full.items)
        × (is_ref_name t.full.items ≡ true) };
}

impl TagName {
    /// Reads a text without `refs/tags/`. Bad exactly where it is no name of a tag.
    pub fn parse(alloc: Global, text: &[u8]) -> Result<TagName, TagNameFault>
        ensures ok { IfOk result (λ name. (name ≡ text.now) × (is_tag_name text.now ≡ true)) }
        ensures bad { IsErrOf result TagNameFault.Bad → is_tag_name text.now ≡ false }
    {
        let Ok(full) = ref_of(alloc, text) else {
            return Err(TagNameFault::OutOfMemory);
        };
        if !is_ref_name(&full) {
            return Err(TagNameFault::Bad);
        }
        Ok(TagName { full })
    }

    /// The text, without `refs/tags/`.
    pub fn text(&self) -> &[u8]
        ensures text { result.now ≡ self.now }
        ensures valid { is_tag_name self.now ≡ true }
    {
        &self.full[FRONT_BYTES..]
    }

    /// An equal name.
    pub fn copy(&self, alloc: Global) -> Result<TagName, AllocError>
        ensures { IfOk result (λ copy. copy ≡ self.now) }
    {
        Ok(TagName {
            full: self.full.to_vec(alloc)?,
        })
    }
}

// The name of the ref that Git gives a tag of that name.
fn ref_of(alloc: Global, text: &[u8]) -> Result<Vec<u8>, AllocError>
    ensures { IfOk result (λ full. full.items ≡ tag_ref text.now) }
{
    let mut full = Vec::with_capacity(alloc, text.len().saturating_add(FRONT_BYTES))?;
    full.extend_from_slice(FRONT)?;
    full.extend_from_slice(text)?;
    Ok(full)
}

impl PartialEq for TagName {
    ghost eq = { pointwise nat_eq };

    ghost laws = { partial_equiv_from_equiv nat_list_eq_equiv };

    fn eq(&self, other: &TagName) -> bool {
        self.text() == other.text()
    }
}

impl Eq for TagName {
    ghost laws = { nat_list_eq_equiv };
}

// Names of tags stand in byte order.
impl PartialOrd for TagName {
    ghost partial_cmp = { λ a b. Some (slice_cmp nat_cmp a b) };

    ghost laws = { texts_po };

    fn partial_cmp(&self, other: &TagName) -> Option<Ordering> {
        Some(self.cmp(other))
    }
}

impl Ord for TagName {
    ghost cmp = { slice_cmp nat_cmp };

    ghost total = { nat_list_cmp_total };

    ghost matches_partial_cmp = { λ a b. refl };

    ghost matches_eq = { texts_ties };

    fn cmp(&self, other: &TagName) -> Ordering {
        self.text().cmp(other.text())
    }
}
