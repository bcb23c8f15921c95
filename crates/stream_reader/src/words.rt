// Words and marks of a line.
ghost use Rattle.std.specs.Prelude.{◌≡◌, ◌==◌, position};
ghost use Rattle.stream_reader.specs.Words.{first_word, mark};
ghost use Rattle.stream_reader.specs.Views.{word_read};

use path_names::{number, strip};

// Where the first space stands.
fn first_space(text: &[u8]) -> Option<usize>
    ensures { result ≡ position (λ x. x == 32) text.now }
{
    text.iter().position(|x| *x == b' ')
}

// The first word, and what stands behind the space after it, or none where the text ends.
#[tactic(auto, unfolding(crate::specs::Words::first_word))]
pub fn first_word(text: &[u8]) -> (&[u8], Option<&[u8]>)
    ensures { word_read result ≡ first_word text.now }
{
    match first_space(text) {
        None => (text, None),
        Some(at) => (&text[..at], Some(&text[at + 1..])),
    }
}

// A mark: `:` and 1 to 18 digits, not 0.
#[tactic(auto, unfolding(crate::specs::Words::mark))]
pub fn mark(text: &[u8]) -> Option<u64>
    ensures { result ≡ mark text.now }
{
    let digits = strip(b":".as_slice(), text)?;
    let n = number(digits)?;
    if n == 0 {
        return None;
    }
    Some(n)
}
