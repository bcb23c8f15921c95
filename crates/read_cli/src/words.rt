// The forms of the words.
ghost use Rattle.std.specs.Prelude.{◌≡◌, ◌↔◌, map, string_bytes, IsSome, true};
ghost use Rattle.read_cli.specs.Readings.{Check, Log, names_of, new_subject, new_words};
ghost use Rattle.read_cli.specs.Readings.{originals_words, reading, subject_words};
ghost use Rattle.read_cli.specs.Looks.{IsFormed, form_reading};

use git_objects::Name;
use path_names::is_ref_name;

/// What `new` writes beside the commits.
#[derive(Clone, Copy)]
pub enum Beside {
    Nothing,
    /// Their annotated tags, behind them.
    Tags,
    /// These tags, and in front of all the name of the head's projection and those of all tags that are shown.
    Names,
}

/// What the words ask of a store. A ref stands before the text of a filter, and is a ref name; names have 40 digits of
/// either case.
#[derive(Clone, Copy)]
pub enum Form<'a> {
    Refs,
    Log(&'a [u8], &'a [u8]),
    Check(&'a [u8], &'a [u8]),
    /// What stands beside; a ref, the text of a filter, and names.
    New(Beside, &'a [u8], &'a [u8], &'a [String]),
    /// A ref, and names.
    Originals(&'a [u8], &'a [String]),
    /// The words have none of the forms.
    Unknown,
}

// Whether each word is a name in digits.
fn are_names(words: &[String]) -> bool
    ensures { (result ≡ true) ↔ IsSome (names_of (map (λ word. string_bytes word) words.now)) }
{
    for word in words {
        if Name::from_hex(word.as_bytes()).is_none() {
            return false;
        }
    }
    true
}

fn log_words(words: &[String]) -> Form<'_>
    ensures reading { form_reading result ≡ subject_words Log (map (λ word. string_bytes word) words.now) }
    ensures formed { IsFormed result }
{
    let [refname, filter] = words else {
        return Form::Unknown;
    };
    if is_ref_name(refname.as_bytes()) {
        return Form::Log(refname.as_bytes(), filter.as_bytes());
    }
    Form::Unknown
}

fn check_words(words: &[String]) -> Form<'_>
    ensures reading { form_reading result ≡ subject_words Check (map (λ word. string_bytes word) words.now) }
    ensures formed { IsFormed result }
{
    match log_words(words) {
        Form::Log(refname, filter) => Form::Check(refname, filter),
        _ => Form::Unknown,
    }
}

// A ref, the text of a filter, and names.
fn new_subject(beside: Beside, words: &[String]) -> Form<'_>
    ensures reading { form_reading result ≡ new_subject beside (map (λ word. string_bytes word) words.now) }
    ensures formed { IsFormed result }
{
    let [refname, filter, haves @ ..] = words else {
        return Form::Unknown;
    };
    if is_ref_name(refname.as_bytes()) && are_names(haves) {
        return Form::New(beside, refname.as_bytes(), filter.as_bytes(), haves);
    }
    Form::Unknown
}

fn new_words(words: &[String]) -> Form<'_>
    ensures reading { form_reading result ≡ new_words (map (λ word. string_bytes word) words.now) }
    ensures formed { IsFormed result }
{
    let [first, rest @ ..] = words else {
        return Form::Unknown;
    };
    if first.as_bytes() == b"--tags".as_slice() {
        return new_subject(Beside::Tags, rest);
    }
    if first.as_bytes() == b"--names".as_slice() {
        return new_subject(Beside::Names, rest);
    }
    new_subject(Beside::Nothing, words)
}

fn originals_words(words: &[String]) -> Form<'_>
    ensures reading { form_reading result ≡ originals_words (map (λ word. string_bytes word) words.now) }
    ensures formed { IsFormed result }
{
    let [refname, haves @ ..] = words else {
        return Form::Unknown;
    };
    if is_ref_name(refname.as_bytes()) && are_names(haves) {
        return Form::Originals(refname.as_bytes(), haves);
    }
    Form::Unknown
}

/// The form of the words. It takes no memory.
pub fn read_words(words: &[String]) -> Form<'_>
    ensures reading { form_reading result ≡ reading (map (λ word. string_bytes word) words.now) }
    ensures formed { IsFormed result }
{
    let [form, rest @ ..] = words else {
        return Form::Unknown;
    };
    if form.as_bytes() == b"refs".as_slice() {
        return if rest.is_empty() {
            Form::Refs
        } else {
            Form::Unknown
        };
    }
    if form.as_bytes() == b"log".as_slice() {
        return log_words(rest);
    }
    if form.as_bytes() == b"check".as_slice() {
        return check_words(rest);
    }
    if form.as_bytes() == b"new".as_slice() {
        return new_words(rest);
    }
    if form.as_bytes() == b"originals".as_slice() {
        return originals_words(rest);
    }
    Form::Unknown
}
