// Two listings read side by side.
ghost use Rattle.std.specs.Prelude.{◌≡◌, drop, slice_get};
ghost use Rattle.std.specs.Option.{option_map};
ghost use Rattle.git_objects.specs.Entries.{entry_component, entry_dir, git_cmp};
ghost use Rattle.git_objects.specs.Views.{entry_value};
ghost use Rattle.path_trees.specs.Merged.{merged, pair_value};

use git_objects::{EntryView, TreeView, compare_components};
use std::cmp::Ordering;

/// An entry of one of two listings, or one of each with the same component.
#[derive(Clone, Copy)]
pub enum Pair<'a> {
    Left(EntryView<'a>),
    Right(EntryView<'a>),
    Both(EntryView<'a>, EntryView<'a>),
}

fn order(a: &EntryView<'_>, b: &EntryView<'_>) -> Ordering
    ensures { result ≡ git_cmp entry_component entry_dir (entry_value a.now) (entry_value b.now) }
{
    compare_components(a.component, a.mode.is_dir(), b.component, b.mode.is_dir())
}

/// The next of what is left of two listings, in Git's order. It needs no memory.
pub fn next_pair<'a>(left: &mut TreeView<'a>, right: &mut TreeView<'a>) -> Option<Pair<'a>>
    ensures pair { option_map pair_value result ≡ slice_get (merged left.old right.old) 0 }
    ensures rest { merged left.new right.new ≡ drop 1 (merged left.old right.old) }
{
    let mut after_left = left.copy();
    let mut after_right = right.copy();
    let Some(entry) = after_left.next() else {
        return match right.next() {
            None => None,
            Some(other) => Some(Pair::Right(other)),
        };
    };
    let Some(other) = after_right.next() else {
        *left = after_left;
        return Some(Pair::Left(entry));
    };
    match order(&entry, &other) {
        Ordering::Less => {
            *left = after_left;
            Some(Pair::Left(entry))
        }
        Ordering::Greater => {
            *right = after_right;
            Some(Pair::Right(other))
        }
        Ordering::Equal => {
            *left = after_left;
            *right = after_right;
            Some(Pair::Both(entry, other))
        }
    }
}
