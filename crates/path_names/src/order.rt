// How two paths stand to each other.
ghost use Rattle.std.specs.Prelude.{◌≡◌, ◌++◌, ◌∷◌, [], true, Some, None, if◌then◌else◌};
ghost use Rattle.std.specs.Prelude.{slice_get};
ghost use Rattle.std.specs.Option.{option_or};
ghost use Rattle.std.specs.Ordering.{nat_cmp};
ghost use Rattle.std.specs.Cmp.Lexicographic.{slice_cmp};
ghost use Rattle.git_objects.specs.Paths.{is_component, comparable, before};

use crate::Path;
use std::cmp::Ordering;

/// Whether one path is a prefix of the other, or they are equal.
pub fn comparable(a: &Path, b: &Path) -> bool
    ensures { result ≡ comparable a.now b.now }
{
    a.components()
        .iter()
        .zip(b.components())
        .all(|(c, d)| c.bytes() == d.bytes())
}

/// Whether a's text stands before b's, by their bytes.
pub fn before(a: &Path, b: &Path) -> bool
    ensures { result ≡ before a.now b.now }
{
    let a = a.components();
    let b = b.components();
    let mut i = 0;
    while i < a.len() && i < b.len() {
        let order = level_order(a[i].bytes(), i + 1 < a.len(), b[i].bytes(), i + 1 < b.len());
        if order.is_ne() {
            return order.is_lt();
        }
        i += 1;
    }
    a.len() < b.len()
}

// The order of two components as texts have them, each with a slash behind it where more components follow.
fn level_order(c: &[u8], c_more: bool, d: &[u8], d_more: bool) -> Ordering
    requires c { is_component c.now ≡ true }
    requires d { is_component d.now ≡ true }
    ensures { result ≡ slice_cmp nat_cmp (if c_more then c.now ++ 47 ∷ [] else c.now)
        (if d_more then d.now ++ 47 ∷ [] else d.now) }
{
    let n = c.len().min(d.len());
    c[..n]
        .cmp(&d[..n])
        .then(byte_at(c, c_more, n).cmp(&byte_at(d, d_more, n)))
}

// The byte there, where a slash follows the component or the text ends.
fn byte_at(c: &[u8], more: bool, at: usize) -> Option<u8>
    ensures { result ≡ option_or (slice_get c.now at) (if more then Some 47 else None) }
{
    match c.get(at) {
        Some(byte) => Some(*byte),
        None if more => Some(b'/'),
        None => None,
    }
}
