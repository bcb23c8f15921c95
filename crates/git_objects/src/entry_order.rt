// Git's order of a tree's entries.
ghost use Rattle.std.specs.Prelude.{◌≡◌, [], ◌∷◌};
ghost use Rattle.std.specs.Ordering.{nat_cmp};
ghost use Rattle.std.specs.Cmp.Lexicographic.{slice_cmp};
ghost use Rattle.git_objects.specs.Entries.{dir_key};

use std::cmp::Ordering;

// What stands behind a component where it is compared.
fn slash(is_dir: bool) -> &'static [u8]
    ensures { result.now ≡ dir_key [] is_dir }
{
    if is_dir { b"/" } else { b"" }
}

// So many bytes at the front are compared one by one.
const FRONT_BYTES: usize = 8;

/// Compares two components by their bytes. Most differ within a few bytes, which are compared one by one faster than as
/// runs.
#[inline]
pub fn compare_bytes(a: &[u8], b: &[u8]) -> Ordering
    ensures { result ≡ slice_cmp nat_cmp a.now b.now }
{
    let n = a.len().min(b.len()).min(FRONT_BYTES);
    match a[..n].iter().cmp(b[..n].iter()) {
        Ordering::Equal => a[n..].cmp(&b[n..]),
        order => order,
    }
}

/// Compares the components of two entries as the Git object format orders them: by their bytes, that of a directory
/// as if it ended in `/`.
#[inline]
pub fn compare_components(a: &[u8], a_dir: bool, b: &[u8], b_dir: bool) -> Ordering
    ensures { result ≡ slice_cmp nat_cmp (dir_key a.now a_dir) (dir_key b.now b_dir) }
{
    // The front decides nearly always, and slices are compared much faster than chained iterators.
    let n = a.len().min(b.len());
    match compare_bytes(&a[..n], &b[..n]) {
        Ordering::Equal => compare_tails(&a[n..], a_dir, &b[n..], b_dir),
        order => order,
    }
}

// Compares so what stands behind a front that two components share.
fn compare_tails(a: &[u8], a_dir: bool, b: &[u8], b_dir: bool) -> Ordering
    ensures { result ≡ slice_cmp nat_cmp (dir_key a.now a_dir) (dir_key b.now b_dir) }
{
    a.iter()
        .chain(slash(a_dir).iter())
        .cmp(b.iter().chain(slash(b_dir).iter()))
}
