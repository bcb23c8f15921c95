// The texts of the outcomes.
ghost use Rattle.std.specs.Prelude.{◌≡◌, ◌++◌, codes, decimal, false, is_some, IfOk, IfSome, OnOk};
ghost use Rattle.git_objects.specs.Commits.{hex};
ghost use Rattle.proj_words.specs.Outcomes.{is_plain, text_of, words_of};
ghost use Rattle.proj_words.specs.Outcomes.{feature_words, filter_words, limit_words, name_words, path_words};

use crate::{FilterWhat, Outcome};
use git_objects::{Name, Quantity};
use itoa::Buffer;
use path_names::{Path, quote};
use std::alloc::{AllocError, Global};
use stream_reader::Feature;

const USAGE: &[u8] =
    b"usage: proj STORE (import [--force] | project REF FILTER | push [--merges] REF FILTER | \
    export [--tags] REF FILTER | tags REF FILTER | \
    audit REF FILTER PATH | as USER (project | push | export) REF FILTER | batch | \
    rule (1 | 2)), proj name REF FILTER, proj trial N, proj verify COMMIT FILTER PATH\n";

/// The line for the error stream where it says no number, name, path or other cause. It takes no memory.
pub fn plain_text(outcome: &Outcome) -> Option<&'static [u8]>
    ensures text { IfSome result (λ text. text.now ≡ text_of outcome.now) }
    ensures plain { is_some result ≡ is_plain outcome.now }
{
    match outcome {
        Outcome::Done => Some(b"".as_slice()),
        Outcome::OutOfMemory => Some(b"out of memory\n".as_slice()),
        Outcome::Usage => Some(USAGE),
        Outcome::UnknownRef => Some(b"unknown ref\n".as_slice()),
        Outcome::ReadFault => Some(b"read fault\n".as_slice()),
        Outcome::WriteFault => Some(b"write fault\n".as_slice()),
        Outcome::StoreFault => Some(b"store fault\n".as_slice()),
        _ => None,
    }
}

fn feature_words(feature: Feature) -> &'static [u8]
    ensures { result.now ≡ feature_words feature }
{
    match feature {
        Feature::Tag => b"tag",
        Feature::Options => b"option",
        Feature::Alias => b"alias",
        Feature::Ls => b"ls",
        Feature::CatBlob => b"cat-blob",
        Feature::GetMark => b"get-mark",
        Feature::Notes => b"notes",
        Feature::FeatureLine => b"feature",
        Feature::Encoding => b"encoding",
        Feature::Signature => b"gpgsig",
        Feature::Delimiter => b"delimiter",
        Feature::DirectoryMode => b"directory mode",
        Feature::LinkTarget => b"link target",
        Feature::EmptyPath => b"empty path",
        Feature::ZeroName => b"zero name",
    }
}

fn filter_words(what: FilterWhat) -> &'static [u8]
    ensures { result.now ≡ filter_words what }
{
    match what {
        FilterWhat::TooLong => b"too long",
        FilterWhat::TooDeep => b"too deep",
        FilterWhat::Syntax => b"syntax",
        FilterWhat::WorkspacePlace => b"workspace place",
        FilterWhat::TooMany => b"too many",
    }
}

fn limit_words(which: Quantity) -> &'static [u8]
    ensures { result.now ≡ limit_words which }
{
    match which {
        Quantity::Stream => b"stream",
        Quantity::Line => b"line",
        Quantity::Blob => b"blob",
        Quantity::Message => b"message",
        Quantity::Component => b"component",
        Quantity::PathDepth => b"path depth",
        Quantity::PathBytes => b"path bytes",
        Quantity::Parents => b"parents",
        Quantity::Files => b"files",
        Quantity::Commits => b"commits",
        Quantity::Objects => b"objects",
        Quantity::Item => b"item",
        Quantity::Items => b"items",
        Quantity::Store => b"store",
        Quantity::Input => b"input",
    }
}

/// Adds a number in decimal.
pub fn add_number(words: &mut Vec<u8>, n: u64) -> Result<(), AllocError>
    ensures { OnOk result (words.new.items ≡ words.old.items ++ decimal n) }
{
    let mut buffer = Buffer::new();
    words.extend_from_slice(buffer.format(n).as_bytes())
}

// Adds the digits of a name, or `none`.
fn add_name(words: &mut Vec<u8>, name: &Option<Name>) -> Result<(), AllocError>
    ensures { OnOk result (words.new.items ≡ words.old.items ++ name_words name.now) }
{
    match name {
        None => words.extend_from_slice(b"none"),
        Some(name) => words.extend_from_slice(&name.hex()),
    }
}

// Adds a path, between double quotes where it has to be.
fn add_path(alloc: Global, words: &mut Vec<u8>, path: &Path) -> Result<(), AllocError>
    ensures { OnOk result (words.new.items ≡ words.old.items ++ path_words path.now) }
{
    let text = path.text(alloc)?;
    let quoted = quote(alloc, &text)?;
    words.extend_from_slice(&quoted)
}

/// Words with a number behind them.
pub fn numbered(alloc: Global, front: &[u8], n: u64) -> Result<Vec<u8>, AllocError>
    ensures { IfOk result (λ words. words.items ≡ front.now ++ decimal n) }
{
    let mut words = front.to_vec(alloc)?;
    add_number(&mut words, n)?;
    Ok(words)
}

// Words with other words behind them.
fn joined(alloc: Global, front: &[u8], back: &[u8]) -> Result<Vec<u8>, AllocError>
    ensures { IfOk result (λ words. words.items ≡ front.now ++ back.now) }
{
    let mut words = front.to_vec(alloc)?;
    words.extend_from_slice(back)?;
    Ok(words)
}

// Words with the number of a commit and a path behind them.
fn with_path(alloc: Global, front: &[u8], n: u32, path: &Path) -> Result<Vec<u8>, AllocError>
    ensures { IfOk result (λ words.
        words.items ≡ front.now ++ decimal n ++ codes ": " ++ path_words path.now) }
{
    let mut words = numbered(alloc, front, u64::from(n))?;
    words.extend_from_slice(b": ")?;
    add_path(alloc, &mut words, path)?;
    Ok(words)
}

fn blocked_words(alloc: Global, n: u32, path: &Path, by: &Path) -> Result<Vec<u8>, AllocError>
    ensures { IfOk result (λ words. words.items ≡ words_of (Outcome.Blocked n path.now by.now)) }
{
    let mut words = with_path(alloc, b"blocked: commit ", n, path)?;
    words.extend_from_slice(b" by ")?;
    add_path(alloc, &mut words, by)?;
    Ok(words)
}

fn unsupported_words(alloc: Global, at: u64, what: Feature) -> Result<Vec<u8>, AllocError>
    ensures { IfOk result (λ words. words.items ≡ words_of (Outcome.Unsupported at what)) }
{
    let mut words = joined(alloc, b"unsupported ", feature_words(what))?;
    words.extend_from_slice(b" at ")?;
    add_number(&mut words, at)?;
    Ok(words)
}

fn overlap_words(alloc: Global, list: u32, first: u32, second: u32) -> Result<Vec<u8>, AllocError>
    ensures { IfOk result (λ words. words.items ≡ words_of (Outcome.Overlap list first second)) }
{
    let mut words = numbered(alloc, b"overlap: list ", u64::from(list))?;
    words.extend_from_slice(b", branches ")?;
    add_number(&mut words, u64::from(first))?;
    words.extend_from_slice(b" and ")?;
    add_number(&mut words, u64::from(second))?;
    Ok(words)
}

fn not_forward_words(
    alloc: Global,
    refname: &[u8],
    old: &Name,
    new: &Name,
) -> Result<Vec<u8>, AllocError>
    ensures { IfOk result (λ words. words.items ≡ words_of (Outcome.NotForward refname.now old.now new.now)) }
{
    let mut words = joined(alloc, b"not forward: ", refname)?;
    words.extend_from_slice(b" ")?;
    words.extend_from_slice(&old.hex())?;
    words.extend_from_slice(b" ")?;
    words.extend_from_slice(&new.hex())?;
    Ok(words)
}

fn not_at_head_words(
    alloc: Global,
    expected: &Option<Name>,
    got: &Option<Name>,
) -> Result<Vec<u8>, AllocError>
    ensures { IfOk result (λ words. words.items ≡ words_of (Outcome.NotAtHead expected.now got.now)) }
{
    let mut words = b"not at head: expected ".to_vec(alloc)?;
    add_name(&mut words, expected)?;
    words.extend_from_slice(b", got ")?;
    add_name(&mut words, got)?;
    Ok(words)
}

fn limited_words(alloc: Global, which: Quantity, at: &Option<u64>) -> Result<Vec<u8>, AllocError>
    ensures { IfOk result (λ words. words.items ≡ words_of (Outcome.Limit which at.now)) }
{
    let mut words = joined(alloc, b"limit: ", limit_words(which))?;
    if let Some(at) = at {
        words.extend_from_slice(b" at ")?;
        add_number(&mut words, *at)?;
    }
    Ok(words)
}

fn damaged_words(alloc: Global, item: u32, at: u64) -> Result<Vec<u8>, AllocError>
    ensures { IfOk result (λ words. words.items ≡ words_of (Outcome.Damaged item at)) }
{
    let mut words = numbered(alloc, b"damaged: item ", u64::from(item))?;
    words.extend_from_slice(b" at ")?;
    add_number(&mut words, at)?;
    Ok(words)
}

// The line without its end, for an outcome that has a cause to tell.
fn cause_words(alloc: Global, outcome: &Outcome) -> Result<Vec<u8>, AllocError>
    requires { is_plain outcome.now ≡ false }
    ensures { IfOk result (λ words. words.items ≡ words_of outcome.now) }
{
    match outcome {
        Outcome::Syntax { at } => numbered(alloc, b"syntax at ", *at),
        Outcome::Unsupported { at, what } => unsupported_words(alloc, *at, *what),
        Outcome::Unresolved { at } => numbered(alloc, b"unresolved at ", *at),
        Outcome::BadPath { at } => numbered(alloc, b"bad path at ", *at),
        Outcome::NoSource { at } => numbered(alloc, b"no source at ", *at),
        Outcome::FilterFault { what } => joined(alloc, b"filter: ", filter_words(*what)),
        Outcome::Overlap {
            list,
            first,
            second,
        } => overlap_words(alloc, *list, *first, *second),
        Outcome::NotKeeping { piece } => numbered(alloc, b"not keeping: piece ", u64::from(*piece)),
        Outcome::NotForward { refname, old, new } => {
            not_forward_words(alloc, refname.text(), old, new)
        }
        Outcome::OtherRef { at } => numbered(alloc, b"other ref at ", *at),
        Outcome::NotAtHead { expected, got } => not_at_head_words(alloc, expected, got),
        Outcome::MergePushed { n } => numbered(alloc, b"merge: commit ", u64::from(*n)),
        Outcome::NoChange { n } => numbered(alloc, b"no change: commit ", u64::from(*n)),
        Outcome::NotHeld { n, path } => with_path(alloc, b"not held: commit ", *n, path),
        Outcome::Blocked { n, path, by } => blocked_words(alloc, *n, path, by),
        Outcome::Limit { which, at } => limited_words(alloc, *which, at),
        Outcome::Collision { name } => joined(alloc, b"collision: ", &name.hex()),
        Outcome::Damaged { item, at } => damaged_words(alloc, *item, *at),
        Outcome::BadWorkspace { n } => numbered(alloc, b"bad workspace: commit ", u64::from(*n)),
        Outcome::Unseen { n, path } => with_path(alloc, b"unseen: commit ", *n, path),
        Outcome::RepeatedParent { n } => numbered(
            alloc,
            b"repeated parent: commit ",
            u64::from(*n),
        ),
        Outcome::TagExists { tag } => joined(alloc, b"tag exists: ", tag.text()),
        Outcome::NotProved { name } => joined(alloc, b"not proved: ", &name.hex()),
        Outcome::Denied { rule } => numbered(alloc, b"denied: rule ", u64::from(*rule)),
        Outcome::BadPolicy { line } => numbered(alloc, b"bad policy: line ", u64::from(*line)),
        _ => unreachable!(),
    }
}

/// The line for the error stream; nothing where the command is done.
pub fn outcome_text(alloc: Global, outcome: &Outcome) -> Result<Vec<u8>, AllocError>
    ensures { IfOk result (λ text. text.items ≡ text_of outcome.now) }
{
    match plain_text(outcome) {
        Some(text) => text.to_vec(alloc),
        None => {
            let mut text = cause_words(alloc, outcome)?;
            text.extend_from_slice(b"\n")?;
            Ok(text)
        }
    }
}
