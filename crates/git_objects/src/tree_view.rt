// What a tree's body lists, seen in place.
ghost use Rattle.std.specs.Prelude.{◌≡◌, ◌≢◌, List, Some, None, IfSome, ◌∷◌, ◌++◌, [], drop};
ghost use Rattle.std.specs.Prelude.{is_some};
ghost use Rattle.std.specs.Prelude.{◌<◌, ◌≤◌, length, take, slice_get, true, false};
ghost use Rattle.std.specs.Option.{ForSome};
ghost use Rattle.std.specs.Option.{option_map};
ghost use Rattle.std.specs.Ordering.{is_lt};
ghost use Rattle.git_objects.specs.Entries.{body_text, entry_component, entry_dir, git_cmp};
ghost use Rattle.git_objects.specs.Bodies.{entry_from, first_mode, mode_from, target_from, tree_entries};
ghost use Rattle.git_objects.specs.Paths.{Bytes};
ghost use Rattle.git_objects.specs.Neighbours.{before_dir, fits_before, is_alone, spelled_entries, stands};
ghost use Rattle.git_objects.specs.Views.{entry_value};
ghost use Rattle.git_objects.specs.SharedFronts.{SharesFront};
ghost use Rattle.git_objects.specs.declared.entry.Entry.{Entry};

use crate::entry_order::compare_components;
use crate::ident::cut;
use crate::{Mode, Name, is_component};
use std::marker::Model;

/// One entry of a tree's body.
#[derive(Clone, Copy, Debug)]
pub struct EntryView<'a> {
    pub mode: Mode,
    pub component: &'a [u8],
    pub name: Name,
}

/// The entries of a tree's body that are left.
#[derive(Debug, Drop)]
pub struct TreeView<'a> {
    rest: &'a [u8],
}

impl<'a> Model for TreeView<'a> {
    ghost use Rattle.std.specs.Prelude.{List, IsSome, [], unwrap_or};
    ghost use Rattle.git_objects.specs.declared.entry.Entry.{Entry};
    ghost use Rattle.git_objects.specs.Bodies.{tree_entries};

    ghost Value = { List Entry };

    ghost view = { λ t. unwrap_or (tree_entries t.rest.now) [] };

    ghost invariant = { λ t. IsSome (tree_entries t.rest.now) };
}

impl<'a> TreeView<'a> {
    /// The entries of a body in Git's canonical form; None where the bytes are none. Needs no memory.
    pub fn of(body: &'a [u8]) -> Option<TreeView<'a>>
        ensures { result ≡ tree_entries body.now }
    {
        let mut rest = body;
        'entries: while !rest.is_empty() {
            let Some((entry, after)) = first_entry(rest) else {
                return None;
            };
            if !stands(&entry, after) {
                return None;
            }
            rest = after;
        }
        Some(TreeView { rest: body })
    }

    /// The entries of bytes that are a body, as the caller knows. They are not checked again.
    pub fn of_canonical(body: &'a [u8]) -> TreeView<'a>
        requires { is_some (tree_entries body.now) ≡ true }
        ensures { Some result ≡ tree_entries body.now }
    {
        TreeView { rest: body }
    }

    /// A second view of the entries that are left.
    pub fn copy(&self) -> TreeView<'a>
        ensures { result ≡ self.now }
    {
        TreeView { rest: self.rest }
    }

    /// The bytes that spell the entries that are left.
    #[inline(always)]
    pub fn bytes(&self) -> &'a [u8]
        ensures { result.now ≡ body_text self.now }
    {
        self.rest
    }

    /// The next entry.
    #[inline(always)]
    pub fn next(&mut self) -> Option<EntryView<'a>>
        ensures entry { option_map entry_value result ≡ slice_get self.old 0 }
        ensures rest { self.new ≡ drop 1 self.old }
    {
        match first_entry(self.rest) {
            None => None,
            Some((entry, after)) => {
                self.rest = after;
                Some(entry)
            }
        }
    }

    /// The next entry, where other bytes begin with the same mode and component: the entry, the name that they give it,
    /// and what follows there. Where they don't, the view stays as it was.
    #[inline(always)]
    pub fn next_beside<'b>(&mut self, other: &'b [u8]) -> Option<(EntryView<'a>, Name, &'b [u8])>
        ensures entry { IfSome result (λ r. self.old ≡ entry_value r.0 ∷ self.new) }
        ensures other { IfSome result (λ r.
            entry_from other.now ≡ Some (record (entry_value r.0) { name = r.1 }, r.2.now)) }
        ensures kept { result ≡ None → self.new ≡ self.old }
    {
        match first_beside(self.rest, other) {
            None => None,
            Some((entry, after, name, behind)) => {
                self.rest = after;
                Some((entry, name, behind))
            }
        }
    }

    /// Passes by the entries at the front that another view has at its front, too; all of both, where both list the
    /// same.
    pub fn pass_same(&mut self, other: &mut TreeView<'_>)
        ensures same { (es : List Entry) × (self.old ≡ es ++ self.new) × (other.old ≡ es ++ other.new) }
        ensures apart { (e : Entry) → slice_get self.new 0 ≡ Some e → slice_get other.new 0 ≢ Some e }
    {
        self.pass_front(other);
        'entries: while self.pass_first(other) {}
    }

    // Passes by the entries whose lines end within the groups of bytes that both bodies share at their front.
    #[inline(always)]
    fn pass_front(&mut self, other: &mut TreeView<'_>)
        ensures { (es : List Entry) × (self.old ≡ es ++ self.new) × (other.old ≡ es ++ other.new) }
    {
        let front = common_front(self.rest, other.rest);
        let (rest, other_rest) = after_lines(self.rest, other.rest, front);
        self.rest = rest;
        other.rest = other_rest;
    }

    // Passes by the first entry, where the other view has it first, too.
    fn pass_first(&mut self, other: &mut TreeView<'_>) -> bool
        ensures passed { result ≡ true → (e : Entry) × (self.old ≡ e ∷ self.new)
            × (other.old ≡ e ∷ other.new) }
        ensures kept { result ≡ false → (self.new ≡ self.old) × (other.new ≡ other.old) }
        ensures apart { result ≡ false → (e : Entry) → slice_get self.new 0 ≡ Some e →
            slice_get other.new 0 ≢ Some e }
    {
        match after_same(self.rest, other.rest) {
            None => false,
            Some((rest, other_rest)) => {
                self.rest = rest;
                other.rest = other_rest;
                true
            }
        }
    }
}

fn mode_from(text: &[u8]) -> Option<Mode>
    ensures { result ≡ mode_from text.now }
{
    if text == b"100644".as_slice() {
        return Some(Mode::File);
    }
    if text == b"100755".as_slice() {
        return Some(Mode::Exec);
    }
    if text == b"120000".as_slice() {
        return Some(Mode::Link);
    }
    if text == b"160000".as_slice() {
        return Some(Mode::Module);
    }
    if text == b"40000".as_slice() {
        return Some(Mode::Dir);
    }
    None
}

// An entry of that mode and component, from what follows the zero byte.
#[inline(always)]
fn target<'a>(mode: Mode, component: &'a [u8], text: &'a [u8]) -> Option<(EntryView<'a>, &'a [u8])>
    ensures { option_map (λ r. (entry_value r.0, r.1.now)) result
        ≡ target_from mode (component.now, text.now) }
{
    let (name, after) = text.split_first_chunk::<20>()?;
    Some((
        EntryView {
            mode,
            component,
            name: Name(*name),
        },
        after,
    ))
}

// The mode of the first entry, and what follows the space behind it. The two that are common are looked for at once.
#[inline(always)]
fn first_mode<'a>(body: &'a [u8]) -> Option<(Mode, &'a [u8])>
    ensures { option_map (λ r. (r.0, r.1.now)) result ≡ first_mode body.now }
{
    if let Some(rest) = body.strip_prefix(b"40000 ".as_slice()) {
        return Some((Mode::Dir, rest));
    }
    if let Some(rest) = body.strip_prefix(b"100644 ".as_slice()) {
        return Some((Mode::File, rest));
    }
    let (digits, rest) = cut(b' ', body)?;
    let mode = mode_from(digits)?;
    Some((mode, rest))
}

// The first entry, and what follows it.
#[inline(always)]
fn first_entry<'a>(body: &'a [u8]) -> Option<(EntryView<'a>, &'a [u8])>
    ensures { option_map (λ r. (entry_value r.0, r.1.now)) result ≡ entry_from body.now }
{
    let (mode, rest) = first_mode(body)?;
    let (component, rest) = cut(0, rest)?;
    target(mode, component, rest)
}

// The first entry of a body and what follows it, where other bytes begin with the same mode and component; and the
// name that they give it, and what follows there.
#[inline(always)]
fn first_beside<'a, 'b>(
    body: &'a [u8],
    other: &'b [u8],
) -> Option<(EntryView<'a>, &'a [u8], Name, &'b [u8])>
    ensures first { IfSome result (λ r. entry_from body.now ≡ Some (entry_value r.0, r.1.now)) }
    ensures other { IfSome result (λ r.
        entry_from other.now ≡ Some (record (entry_value r.0) { name = r.2 }, r.3.now)) }
{
    let (entry, after) = first_entry(body)?;
    let (line, _) = body.split_at(body.len() - after.len());
    let (key, _) = line.split_at(line.len() - 20);
    let text = other.strip_prefix(key)?;
    let (name, behind) = text.split_first_chunk::<20>()?;
    Some((entry, after, Name(*name), behind))
}

// What follows the first entry of each of two bodies, where both spell the same one.
fn after_same<'a, 'b>(a: &'a [u8], b: &'b [u8]) -> Option<(&'a [u8], &'b [u8])>
    ensures apart { result ≡ None → (e : Entry) (r s : Bytes) → entry_from a.now ≡ Some (e, r) →
        entry_from b.now ≢ Some (e, s) }
    ensures same { IfSome result (λ r. (e : Entry) × (entry_from a.now ≡ Some (e, r.0.now)) ×
        (entry_from b.now ≡ Some (e, r.1.now))) }
{
    let (_, after) = first_entry(a)?;
    let line = &a[..a.len() - after.len()];
    let other_after = b.strip_prefix(line)?;
    Some((after, other_after))
}

// What follows the first group of bytes of each of two texts, where both begin with the same one.
#[inline(always)]
fn after_group<'a, 'b>(a: &'a [u8], b: &'b [u8]) -> Option<(&'a [u8], &'b [u8])>
    ensures { IfSome result (λ r. (take 8 a.now ≡ take 8 b.now) × (8 ≤ length a.now) × (8 ≤ length b.now) ×
        (r.0.now ≡ drop 8 a.now) × (r.1.now ≡ drop 8 b.now)) }
{
    let (first, rest) = a.split_first_chunk::<8>()?;
    let (other_first, other_rest) = b.split_first_chunk::<8>()?;
    if first == other_first {
        Some((rest, other_rest))
    } else {
        None
    }
}

// How many bytes the groups take that two texts share at their front.
#[inline(always)]
fn common_front(a: &[u8], b: &[u8]) -> usize
    ensures first { result ≤ length a.now }
    ensures second { result ≤ length b.now }
    ensures same { take result a.now ≡ take result b.now }
{
    let mut front = 0;
    let mut a_rest = a;
    let mut b_rest = b;
    'groups: while let Some((a_after, b_after)) = after_group(a_rest, b_rest) {
        front += 8;
        a_rest = a_after;
        b_rest = b_after;
    }
    front
}

// How many bytes the first entry takes, where it ends within so many. No mode has a zero byte, so the first one ends
// the component; the shortest mode and its space take six bytes, and such an entry takes 27 or more.
#[inline(always)]
fn line_within(body: &[u8], front: usize) -> Option<usize>
    requires { front ≤ length body.now }
    ensures size { IfSome result (λ n. (0 < n) × (n ≤ front)) }
    ensures line { IfSome result (λ n. (e : Entry) (r : Bytes) → entry_from body.now ≡ Some (e, r) →
        r ≡ drop n body.now) }
{
    if front < 27 {
        return None;
    }
    let (_, text) = body.split_at(6);
    let (_, behind) = cut(0, text)?;
    let line = body.len() - behind.len() + 20;
    if line > front {
        return None;
    }
    Some(line)
}

// What follows the entries that end within a front that two bodies share.
#[inline(always)]
fn after_lines<'a, 'b>(a: &'a [u8], b: &'b [u8], front: usize) -> (&'a [u8], &'b [u8])
    requires first { front ≤ length a.now }
    requires second { front ≤ length b.now }
    requires same { take front a.now ≡ take front b.now }
    requires a_body { is_some (tree_entries a.now) ≡ true }
    requires b_body { is_some (tree_entries b.now) ≡ true }
    ensures { SharesFront a.now b.now result.0.now result.1.now }
{
    let mut rest = a;
    let mut other_rest = b;
    let mut left = front;
    'lines: while let Some(line) = line_within(rest, left) {
        let (_, after) = rest.split_at(line);
        let (_, other_after) = other_rest.split_at(line);
        rest = after;
        other_rest = other_after;
        left -= line;
    }
    (rest, other_rest)
}

// Whether an entry stands before another.
fn is_before(a: &EntryView<'_>, b: &EntryView<'_>) -> bool
    ensures { result
        ≡ is_lt (git_cmp entry_component entry_dir (entry_value a.now) (entry_value b.now)) }
{
    compare_components(a.component, a.mode.is_dir(), b.component, b.mode.is_dir()).is_lt()
}

// Whether an entry stands before a directory of that component.
fn is_before_dir(entry: &EntryView<'_>, component: &[u8]) -> bool
    ensures { result ≡ before_dir component.now (entry_value entry.now) }
{
    compare_components(entry.component, entry.mode.is_dir(), component, true).is_lt()
}

// Whether no entry, up to the place of a directory of that component, has the component.
fn is_alone(component: &[u8], entries: &[u8]) -> bool
    ensures { ForSome (spelled_entries entries.now) (λ es. result ≡ is_alone component.now es) }
{
    let mut rest = entries;
    'entries: while let Some((entry, after)) = first_entry(rest) {
        if component == entry.component {
            return false;
        }
        if !is_before_dir(&entry, component) {
            return true;
        }
        rest = after;
    }
    true
}

// Whether neither an entry nor one of those behind it, up to the place of a directory of that component, has the
// component.
fn is_apart(component: &[u8], next: &EntryView<'_>, behind: &[u8]) -> bool
    ensures { ForSome (spelled_entries behind.now) (λ es.
        result ≡ is_alone component.now (entry_value next.now ∷ es)) }
{
    component != next.component && (!is_before_dir(next, component) || is_alone(component, behind))
}

// Whether an entry stands before the next, and as a file before no directory of its component.
fn fits_before(entry: &EntryView<'_>, after: &[u8]) -> bool
    ensures { ForSome (spelled_entries after.now) (λ es. result ≡ fits_before (entry_value entry.now) es) }
{
    match first_entry(after) {
        None => true,
        Some((next, behind)) => {
            is_before(entry, &next)
                && (entry.mode.is_dir() || is_apart(entry.component, &next, behind))
        }
    }
}

fn stands(entry: &EntryView<'_>, after: &[u8]) -> bool
    ensures { ForSome (spelled_entries after.now) (λ es. result ≡ stands (entry_value entry.now) es) }
{
    is_component(entry.component) && fits_before(entry, after)
}
