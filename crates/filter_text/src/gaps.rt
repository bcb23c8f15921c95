// Blanks, breaks and comments between members.
ghost use Rattle.std.specs.Prelude.{◌≡◌};
ghost use Rattle.filter_text.specs.Texts.{is_blank, is_break, gap_byte, gap, past_blanks};

// Space, tab or carriage return.
fn is_blank(x: u8) -> bool
    ensures { result ≡ is_blank x }
{
    x == b' ' || x == b'\t' || x == b'\r'
}

// A comma or an LF.
fn is_break(x: u8) -> bool
    ensures { result ≡ is_break x }
{
    x == b',' || x == b'\n'
}

// Whether a comment goes on behind the byte, and whether a break came; None where the gap ends before it.
fn gap_byte(comment: bool, broken: bool, x: u8) -> Option<(bool, bool)>
    ensures { result ≡ gap_byte comment broken x }
{
    if comment {
        return Some((x != b'\n', broken || x == b'\n'));
    }
    if is_break(x) {
        return Some((false, true));
    }
    if is_blank(x) {
        return Some((false, broken));
    }
    if x == b'#' {
        return Some((true, broken));
    }
    None
}

// Whether the gap at the front of a text has a break, and what follows it.
pub fn gap(text: &[u8]) -> (bool, &[u8])
    ensures { (result.0, result.1.now) ≡ gap text.now }
{
    let mut comment = false;
    let mut broken = false;
    for (i, x) in text.iter().enumerate() {
        match gap_byte(comment, broken, *x) {
            None => return (broken, &text[i..]),
            Some(next) => {
                comment = next.0;
                broken = next.1;
            }
        }
    }
    (broken, &[])
}

// What follows the blanks at the front of a text.
pub fn past_blanks(text: &[u8]) -> &[u8]
    ensures { result.now ≡ past_blanks text.now }
{
    for (i, x) in text.iter().enumerate() {
        if !is_blank(*x) {
            return &text[i..];
        }
    }
    &[]
}
