// Names of users.
ghost use Rattle.std.specs.Prelude.{◌≡◌, ◌&&◌, nat_le};
ghost use Rattle.std.specs.List.{list_all};
ghost use Rattle.path_names.specs.UserNames.{is_user};

use git_objects::limits::USER_BYTES;

fn is_visible(word: &[u8]) -> bool
    ensures { result ≡ list_all (λ x. nat_le 33 x && nat_le x 126) word.now }
{
    word.iter().all(|x| 33 <= *x && *x <= 126)
}

/// Whether a word can name a user: 1 to `limits::USER_BYTES` bytes, each from 33 to 126, and not `*`. Takes no memory.
pub fn is_user(word: &[u8]) -> bool
    ensures { result ≡ is_user word.now }
{
    if word.is_empty() {
        return false;
    }
    if word.len() > USER_BYTES {
        return false;
    }
    if !is_visible(word) {
        return false;
    }
    word != b"*".as_slice()
}
