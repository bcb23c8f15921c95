// The words of a rule.
ghost use Rattle.std.specs.Prelude.{◌≡◌, IfOk, IfSome, nat_le};
ghost use Rattle.std.specs.List.{list_all};
ghost use Rattle.std.specs.Option.{option_map};
ghost use Rattle.filter_text.specs.Shapes.{shape};
ghost use Rattle.proj_gate.specs.Policies.{act_from, effect_from, filter_from, is_idle, is_star};
ghost use Rattle.proj_gate.specs.Policies.{pattern_from, rule_from, rule_of, user_from, words};
ghost use Rattle.proj_gate.specs.Views.{IsSpelled, act_value, pattern_value, rule_value, user_value};
ghost use Rattle.proj_gate.specs.Spans.{words_value};

use crate::rule::{Act, Pattern, Rule, User};
use filter_routes::is_sound;
use filter_text::{Filter, FilterFault, parse};
use git_objects::{Bytes, cut};
use path_names::{is_ref_name, is_user};
use std::alloc::{AllocError, Global};

// The words of a rule, as they stand in its line: what it does, to whom, for which act, refs and filter.
#[derive(Clone, Copy)]
pub(crate) struct Words<'a> {
    pub(crate) effect: &'a [u8],
    pub(crate) user: &'a [u8],
    pub(crate) act: &'a [u8],
    pub(crate) refs: &'a [u8],
    pub(crate) filter: &'a [u8],
}

// The words of a line: five with a space between two, of which the last goes up to the line's end.
fn words_of(line: &[u8]) -> Option<Words<'_>>
    ensures { option_map words_value result ≡ words line.now }
{
    let (effect, rest) = cut(b' ', line)?;
    let (user, rest) = cut(b' ', rest)?;
    let (act, rest) = cut(b' ', rest)?;
    let (refs, filter) = cut(b' ', rest)?;
    Some(Words {
        effect,
        user,
        act,
        refs,
        filter,
    })
}

// Whom a word names: everybody, or a user.
fn user_from(alloc: Global, word: &[u8]) -> Result<Option<User>, AllocError>
    ensures { IfOk result (λ o. option_map user_value o ≡ user_from word.now) }
{
    if word == b"*".as_slice() {
        return Ok(Some(User::Anybody));
    }
    if !is_user(word) {
        return Ok(None);
    }
    Ok(Some(User::One(Bytes::of(word.to_vec(alloc)?))))
}

// Whether a word allows or denies.
fn effect_from(word: &[u8]) -> Option<bool>
    ensures { result ≡ effect_from word.now }
{
    if word == b"allow".as_slice() {
        return Some(true);
    }
    if word == b"deny".as_slice() {
        return Some(false);
    }
    None
}

// The act that a word names.
fn act_from(word: &[u8]) -> Option<Act>
    ensures { option_map act_value result ≡ act_from word.now }
{
    if word == b"see".as_slice() {
        return Some(Act::See);
    }
    if word == b"push".as_slice() {
        return Some(Act::Push);
    }
    None
}

fn has_no_low(word: &[u8]) -> bool
    ensures { result ≡ list_all (λ x. nat_le 33 x) word.now }
{
    word.iter().all(|x| 33 <= *x)
}

// Whether a word begins with `refs/`, has no byte below 33 and ends in `/*`.
fn is_star(word: &[u8]) -> bool
    ensures { result ≡ is_star word.now }
{
    word.starts_with(b"refs/") && has_no_low(word) && word.ends_with(b"/*")
}

// Which refs a word names: one by its name, or by a star all whose names begin so.
fn pattern_from(alloc: Global, word: &[u8]) -> Result<Option<Pattern>, AllocError>
    ensures { IfOk result (λ o. option_map pattern_value o ≡ pattern_from word.now) }
{
    if is_ref_name(word) {
        return Ok(Some(Pattern::One(Bytes::of(word.to_vec(alloc)?))));
    }
    if !is_star(word) {
        return Ok(None);
    }
    let front = &word[..word.len() - 1];
    Ok(Some(Pattern::Below(Bytes::of(front.to_vec(alloc)?))))
}

// The filter of a text, where it can be read and is sound.
fn filter_from(alloc: Global, text: &[u8]) -> Result<Option<Filter>, AllocError>
    ensures filter { IfOk result (λ o. option_map (λ f. shape f) o ≡ filter_from text.now) }
    ensures spelled { IfOk result (λ o. IfSome o (λ f. IsSpelled (shape f))) }
{
    match parse(alloc, text) {
        Err(FilterFault::OutOfMemory) => Err(AllocError),
        Err(_) => Ok(None),
        Ok(filter) => {
            if is_sound(alloc, &filter)? {
                Ok(Some(filter))
            } else {
                Ok(None)
            }
        }
    }
}

// The rule of five words, where each of them has a meaning.
fn rule_of(alloc: Global, line: u32, words: Words<'_>) -> Result<Option<Rule>, AllocError>
    ensures rule { IfOk result (λ o. option_map rule_value o ≡ rule_of line (words_value words.entry)) }
    ensures spelled { IfOk result (λ o. IfSome o (λ r. IsSpelled (shape r.filter))) }
{
    let Some(allows) = effect_from(words.effect) else {
        return Ok(None);
    };
    let Some(user) = user_from(alloc, words.user)? else {
        return Ok(None);
    };
    let Some(act) = act_from(words.act) else {
        return Ok(None);
    };
    let Some(refs) = pattern_from(alloc, words.refs)? else {
        return Ok(None);
    };
    let Some(filter) = filter_from(alloc, words.filter)? else {
        return Ok(None);
    };
    Ok(Some(Rule {
        line,
        allows,
        user,
        act,
        refs,
        filter,
    }))
}

/// The rule of a line, which has this number; None where the line is bad.
pub(crate) fn rule_from(alloc: Global, line: u32, text: &[u8]) -> Result<Option<Rule>, AllocError>
    ensures rule { IfOk result (λ o. option_map rule_value o ≡ rule_from line text.now) }
    ensures spelled { IfOk result (λ o. IfSome o (λ r. IsSpelled (shape r.filter))) }
{
    match words_of(text) {
        None => Ok(None),
        Some(words) => rule_of(alloc, line, words),
    }
}

/// Whether a line is empty or begins with `#`.
pub(crate) fn is_idle(line: &[u8]) -> bool
    ensures { result ≡ is_idle line.now }
{
    line.is_empty() || line.starts_with(b"#")
}
