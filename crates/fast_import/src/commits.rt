// The commits that a stream has made.
ghost use Rattle.std.specs.Prelude.{◌≡◌, ◌≤◌, ◌++◌, ◌∷◌, [], None, Some, cond, length, OnErr};
ghost use Rattle.std.specs.Prelude.{OnOk};
ghost use Rattle.std.specs.List.{last_or};
ghost use Rattle.std.specs.Map.{lookup};
ghost use Rattle.std.specs.Option.{option_or};
ghost use Rattle.git_objects.specs.declared.limits.TheConstants.{STREAM_BYTES};
ghost use Rattle.git_objects.specs.declared.name.Name.{Name};
ghost use Rattle.fast_import.specs.Replaying.{is_named, tree_made};

use crate::Made;
use git_objects::Name;
use git_objects::limits::STREAM_BYTES;
use indexmap::IndexMap;
use std::alloc::{AllocError, Global};
use std::marker::Model;

/// The commits that were made, in order, looked up by their names. No more than a stream may have bytes.
#[derive(Drop)]
pub(crate) struct Commits {
    made: Vec<Made>,
    trees: IndexMap<Name, Name>,
}

impl Model for Commits {
    ghost use Rattle.std.specs.Prelude.{List};
    ghost use Rattle.fast_import.specs.declared.replayed.Made.{Made};
    ghost use Rattle.fast_import.specs.Replaying.{AreKept};

    ghost Value = { List Made };

    ghost view = { λ c. c.made.items };

    ghost invariant = { λ c. AreKept c.trees.entries c.made.items };
}

impl Commits {
    pub(crate) fn new(alloc: Global) -> Commits
        ensures { result ≡ [] }
    {
        Commits {
            made: Vec::new(alloc),
            trees: IndexMap::new(alloc),
        }
    }

    /// The tree of the first commit of that name.
    pub(crate) fn tree_of(&self, name: &Name) -> Option<Name>
        ensures { result ≡ tree_made name.now self.now }
    {
        self.trees.get(name).copied()
    }

    /// The commit that was made last.
    pub(crate) fn last(&self) -> Option<Made>
        ensures { result ≡ last_or None self.now }
    {
        self.made.last().copied()
    }

    pub(crate) fn count(&self) -> u32
        ensures count { result ≡ length self.now }
        ensures few { result ≤ STREAM_BYTES }
    {
        self.made.len() as u32
    }

    /// Adds a commit behind the others. At a refusal nothing is added.
    pub(crate) fn add(&mut self, made: Made) -> Result<(), AllocError>
        ensures ok { OnOk result (self.new ≡ self.old ++ made ∷ []) }
        ensures err { OnErr result (self.new ≡ self.old) }
    {
        // No stream has so many.
        if self.made.len() as u64 >= STREAM_BYTES {
            return Err(AllocError);
        }
        self.made.reserve(1)?;
        hold_tree(&mut self.trees, made)?;
        let pushed = self.made.push(made);
        prove!(pushed.is_ok());
        Ok(())
    }

    pub(crate) fn into_vec(self) -> Vec<Made>
        ensures same { result.items ≡ self }
        ensures few { length result.items ≤ STREAM_BYTES }
    {
        self.made
    }
}

// Adds a commit's tree, where its name has none.
fn hold_tree(trees: &mut IndexMap<Name, Name>, made: Made) -> Result<(), AllocError>
    ensures ok { OnOk result ((n : Name) → lookup (is_named n) trees.new.entries ≡ option_or
        (lookup (is_named n) trees.old.entries) (cond (is_named n made.name) (Some made.tree) None)) }
    ensures err { OnErr result (trees.new.entries ≡ trees.old.entries) }
{
    if trees.contains_key(&made.name) {
        return Ok(());
    }
    trees.insert(made.name, made.tree)?;
    Ok(())
}
