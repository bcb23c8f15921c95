// The forms of the words.
ghost use Rattle.std.specs.Prelude.{◌≡◌, true, map, string_bytes, IfSome};
ghost use Rattle.path_names.specs.RefNames.{is_ref_name};
ghost use Rattle.path_names.specs.UserNames.{is_user};
ghost use Rattle.proj_words.specs.Views.{command_of};
ghost use Rattle.proj_words.specs.Words.{command, is_formed, one_word, rule_word, two_words, three_words, trial_number};
ghost use Rattle.proj_words.specs.Words.{Trial, certificate_words, export_words, five_words, four_words, is_path_word};
ghost use Rattle.proj_words.specs.Words.{in_batch, line_command, line_words, push_words, user_words};

use crate::cut::cut;
use git_objects::Name;
use path_names::{is_path_text, is_ref_name, is_user, number};

// The most commits of a trial.
const TRIAL_COMMITS: u64 = 100_000;

/// What a command asks of a store, without any input, and without an item that it appends.
#[derive(Clone, Copy)]
pub enum Query<'a> {
    /// The annotated tags that a ref has through the text of a filter.
    Tags(&'a [u8], &'a [u8]),
    /// A certificate: of a ref, the text of a filter, and that of a path, which is read as one.
    Audit(&'a [u8], &'a [u8], &'a [u8]),
}

/// What the words ask for. A ref stands before the text of a filter, and is a ref name. Each may have any bytes.
#[derive(Clone, Copy)]
pub enum Command<'a> {
    /// Whether a ref may move anywhere.
    Import(bool),
    Project(&'a [u8], &'a [u8]),
    Push(&'a [u8], &'a [u8]),
    /// A push whose commits may have further parents.
    PushMerges(&'a [u8], &'a [u8]),
    Export(&'a [u8], &'a [u8]),
    /// An export with its annotated tags.
    ExportTags(&'a [u8], &'a [u8]),
    Name(&'a [u8], &'a [u8]),
    Batch,
    /// How many commits, from 1 to 100,000.
    Trial(u64),
    /// The number of a rule, 1 or 2.
    Rule(u8),
    Ask(Query<'a>),
    /// A commit's 40 digits of either case, the text of a filter, and that of a path, which is read as one.
    Verify(&'a [u8], &'a [u8], &'a [u8]),
    /// A user, and the ref and the filter's text of the command that a policy may let him do.
    AsProject(&'a [u8], &'a [u8], &'a [u8]),
    AsPush(&'a [u8], &'a [u8], &'a [u8]),
    AsExport(&'a [u8], &'a [u8], &'a [u8]),
    /// The words have none of the forms.
    Unknown,
}

fn one_word<'a>(word: &[u8]) -> Command<'a>
    ensures { command_of result ≡ one_word word.now }
{
    if word == b"import".as_slice() {
        return Command::Import(false);
    }
    if word == b"batch".as_slice() {
        return Command::Batch;
    }
    Command::Unknown
}

// A number from 1 to 100,000 without a leading zero.
fn trial_number(text: &[u8]) -> Option<u64>
    ensures number { result ≡ trial_number text.now }
    ensures formed { IfSome result (λ n. is_formed (Trial n) ≡ true) }
{
    if text.starts_with(b"0") {
        return None;
    }
    match number(text) {
        Some(n) if n >= 1 && n <= TRIAL_COMMITS => Some(n),
        _ => None,
    }
}

// The digit 1 or 2.
fn rule_word<'a>(word: &[u8]) -> Command<'a>
    ensures command { command_of result ≡ rule_word word.now }
    ensures formed { is_formed (command_of result) ≡ true }
{
    if word == b"1".as_slice() {
        return Command::Rule(1);
    }
    if word == b"2".as_slice() {
        return Command::Rule(2);
    }
    Command::Unknown
}

fn two_words<'a>(word: &[u8], next: &[u8]) -> Command<'a>
    ensures command { command_of result ≡ two_words word.now next.now }
    ensures formed { is_formed (command_of result) ≡ true }
{
    if word == b"import".as_slice() {
        if next == b"--force".as_slice() {
            return Command::Import(true);
        }
        return Command::Unknown;
    }
    if word == b"trial".as_slice() {
        return match trial_number(next) {
            Some(n) => Command::Trial(n),
            None => Command::Unknown,
        };
    }
    if word == b"rule".as_slice() {
        return rule_word(next);
    }
    Command::Unknown
}

fn three_words<'a>(word: &[u8], refname: &'a [u8], filter: &'a [u8]) -> Command<'a>
    ensures { command_of result ≡ three_words word.now refname.now filter.now }
{
    if word == b"project".as_slice() {
        return Command::Project(refname, filter);
    }
    if word == b"push".as_slice() {
        return Command::Push(refname, filter);
    }
    if word == b"export".as_slice() {
        return Command::Export(refname, filter);
    }
    if word == b"tags".as_slice() {
        return Command::Ask(Query::Tags(refname, filter));
    }
    if word == b"name".as_slice() {
        return Command::Name(refname, filter);
    }
    Command::Unknown
}

// A certificate is made of a ref, and checked of a commit.
fn certificate_words<'a>(
    word: &[u8],
    name: &'a [u8],
    filter: &'a [u8],
    path: &'a [u8],
) -> Command<'a>
    requires path { is_path_word path.now ≡ true }
    ensures command { command_of result ≡ certificate_words word.now name.now filter.now path.now }
    ensures formed { is_formed (command_of result) ≡ true }
{
    if word == b"audit".as_slice() {
        if is_ref_name(name) {
            return Command::Ask(Query::Audit(name, filter, path));
        }
        return Command::Unknown;
    }
    if word == b"verify".as_slice() {
        if Name::from_hex(name).is_some() {
            return Command::Verify(name, filter, path);
        }
        return Command::Unknown;
    }
    Command::Unknown
}

// The one option of an export is to have the annotated tags with it.
fn export_words<'a>(option: &[u8], refname: &'a [u8], filter: &'a [u8]) -> Command<'a>
    ensures command { command_of result ≡ export_words option.now refname.now filter.now }
    ensures formed { is_formed (command_of result) ≡ true }
{
    if option != b"--tags".as_slice() {
        return Command::Unknown;
    }
    if !is_ref_name(refname) {
        return Command::Unknown;
    }
    Command::ExportTags(refname, filter)
}

// The one option of a push is that its commits may have further parents.
fn push_words<'a>(option: &[u8], refname: &'a [u8], filter: &'a [u8]) -> Command<'a>
    ensures command { command_of result ≡ push_words option.now refname.now filter.now }
    ensures formed { is_formed (command_of result) ≡ true }
{
    if option != b"--merges".as_slice() {
        return Command::Unknown;
    }
    if !is_ref_name(refname) {
        return Command::Unknown;
    }
    Command::PushMerges(refname, filter)
}

fn four_words<'a>(word: &[u8], second: &'a [u8], third: &'a [u8], last: &'a [u8]) -> Command<'a>
    ensures command { command_of result ≡ four_words word.now second.now third.now last.now }
    ensures formed { is_formed (command_of result) ≡ true }
{
    if word == b"export".as_slice() {
        return export_words(second, third, last);
    }
    if word == b"push".as_slice() {
        return push_words(second, third, last);
    }
    if is_path_text(last) {
        certificate_words(word, second, third, last)
    } else {
        Command::Unknown
    }
}

// A policy may let a user project, push and export.
fn user_words<'a>(user: &'a [u8], word: &[u8], refname: &'a [u8], filter: &'a [u8]) -> Command<'a>
    requires user { is_user user.now ≡ true }
    requires refname { is_ref_name refname.now ≡ true }
    ensures command { command_of result ≡ user_words user.now word.now refname.now filter.now }
    ensures formed { is_formed (command_of result) ≡ true }
{
    if word == b"project".as_slice() {
        return Command::AsProject(user, refname, filter);
    }
    if word == b"push".as_slice() {
        return Command::AsPush(user, refname, filter);
    }
    if word == b"export".as_slice() {
        return Command::AsExport(user, refname, filter);
    }
    Command::Unknown
}

fn five_words<'a>(
    first: &[u8],
    user: &'a [u8],
    word: &[u8],
    refname: &'a [u8],
    filter: &'a [u8],
) -> Command<'a>
    ensures command { command_of result ≡ five_words first.now user.now word.now refname.now filter.now }
    ensures formed { is_formed (command_of result) ≡ true }
{
    if first != b"as".as_slice() {
        return Command::Unknown;
    }
    if !is_user(user) {
        return Command::Unknown;
    }
    if !is_ref_name(refname) {
        return Command::Unknown;
    }
    user_words(user, word, refname, filter)
}

/// What the words ask for, by their form alone: no device is looked at, and a filter's text isn't read.
pub fn read_command<'a>(words: &'a [String]) -> Command<'a>
    ensures command { command_of result ≡ command (map (λ word. string_bytes word) words.now) }
    ensures formed { is_formed (command_of result) ≡ true }
{
    match words {
        [word] => one_word(word.as_bytes()),
        [word, next] => two_words(word.as_bytes(), next.as_bytes()),
        [word, refname, filter] if is_ref_name(refname.as_bytes()) => {
            three_words(word.as_bytes(), refname.as_bytes(), filter.as_bytes())
        }
        [word, second, third, last] => four_words(
            word.as_bytes(),
            second.as_bytes(),
            third.as_bytes(),
            last.as_bytes(),
        ),
        [first, user, word, refname, filter] => five_words(
            first.as_bytes(),
            user.as_bytes(),
            word.as_bytes(),
            refname.as_bytes(),
            filter.as_bytes(),
        ),
        _ => Command::Unknown,
    }
}

// What the words of a line ask for: the third is all that stands behind the second space.
fn spaced_words<'a>(line: &'a [u8]) -> Command<'a>
    ensures command { command_of result ≡ command (line_words line.now) }
    ensures formed { is_formed (command_of result) ≡ true }
{
    let Some((word, others)) = cut(b' ', line) else {
        return one_word(line);
    };
    let Some((refname, filter)) = cut(b' ', others) else {
        return two_words(word, others);
    };
    if !is_ref_name(refname) {
        return Command::Unknown;
    }
    three_words(word, refname, filter)
}

// A batch holds no batch and no trial.
fn in_batch<'a>(command: Command<'a>) -> Command<'a>
    requires { is_formed (command_of command) ≡ true }
    ensures command { command_of result ≡ in_batch (command_of command.entry) }
    ensures formed { is_formed (command_of result) ≡ true }
{
    match command {
        Command::Batch => Command::Unknown,
        Command::Trial(_) => Command::Unknown,
        other => other,
    }
}

/// What a line of words in a batch asks for; a batch and a trial are none there.
pub fn line_command<'a>(line: &'a [u8]) -> Command<'a>
    ensures command { command_of result ≡ line_command line.now }
    ensures formed { is_formed (command_of result) ≡ true }
{
    in_batch(spaced_words(line))
}
