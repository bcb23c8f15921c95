// Words and numbers at the front of texts.
ghost use Rattle.std.specs.Prelude.{◌≡◌};
ghost use Rattle.std.specs.Option.{option_map};
ghost use Rattle.git_objects.specs.CommitBodies.{strip};
ghost use Rattle.git_objects.specs.Idents.{is_digit};
ghost use Rattle.path_names.specs.Words.{number};

/// The text behind a word that stands first.
pub fn strip<'a>(word: &[u8], text: &'a [u8]) -> Option<&'a [u8]>
    ensures { option_map (λ rest. rest.now) result ≡ strip word.now text.now }
{
    text.strip_prefix(word)
}

/// Whether a byte is `0` to `9`.
pub fn is_digit(x: u8) -> bool
    ensures { result ≡ is_digit x }
{
    48 <= x && x <= 57
}

/// What 1 to 18 digits say; None of any other text.
#[tactic(auto, unfolding(crate::specs::Words::number))]
pub fn number(text: &[u8]) -> Option<u64>
    ensures { result ≡ number text.now }
{
    if text.len() < 1 || text.len() > 18 {
        return None;
    }
    let mut n: u64 = 0;
    for (k, x) in text.iter().enumerate() {
        if !is_digit(*x) {
            return None;
        }
        n = 10 * n + u64::from(*x - 48);
    }
    Some(n)
}
