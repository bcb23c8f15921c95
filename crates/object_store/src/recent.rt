// Where the numbers of trees that were put last are kept.
ghost use Rattle.std.specs.Prelude.{◌<◌};

/// How many are kept.
pub(crate) const RECENT: usize = 256;

// The bytes of the body of a large tree, at least.
const LARGE: usize = 1024;

/// Where the number of a tree with that body is kept: by its length and by what it begins with, the mode and, mostly,
/// the component of its first entry. Large trees have places of their own, of which small ones take none: by their
/// length and the last entry's name, since several may list the same components.
pub(crate) fn recent_of(body: &[u8]) -> usize
    ensures { result < 256 }
{
    if body.len() < LARGE {
        match body.first_chunk::<16>() {
            None => 0,
            Some(front) => mixed(u128::from_le_bytes(*front), body.len()),
        }
    } else {
        match body.last_chunk::<16>() {
            None => 128,
            Some(back) => 128 + mixed(u128::from_le_bytes(*back), body.len()),
        }
    }
}

// A number below 128, from bytes and a length.
#[inline(always)]
fn mixed(bytes: u128, len: usize) -> usize
    ensures { result < 128 }
{
    let product = (bytes ^ len as u128).wrapping_mul(0x9E37_79B9_7F4A_7C15_F39C_C060_5CED_C835);
    ((product >> 96) % 128) as usize
}
