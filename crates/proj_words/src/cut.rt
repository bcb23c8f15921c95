// Bytes on either side of one.
ghost use Rattle.std.specs.Prelude.{◌≡◌, ◌+◌, length, IfSome};
ghost use Rattle.std.specs.Option.{option_map};
ghost use Rattle.git_objects.specs.Idents.{cut_at};

use memchr::memchr;

/// What stands before the first byte of that value, and what stands behind it.
pub(crate) fn cut<'a>(byte: u8, text: &'a [u8]) -> Option<(&'a [u8], &'a [u8])>
    ensures cut { option_map (λ r. (r.0.now, r.1.now)) result ≡ cut_at byte text.now }
    ensures size { IfSome result (λ r. length r.0.now + 1 + length r.1.now ≡ length text.now) }
{
    match memchr(byte, text) {
        None => None,
        Some(n) => Some((&text[..n], &text[n + 1..])),
    }
}
