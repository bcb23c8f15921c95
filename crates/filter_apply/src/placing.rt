// What is found, put at a place of its own.
ghost use Rattle.std.specs.Prelude.{◌≡◌, ◌⊎◌, ◌∷◌, [], true, false, IfOk, IfErr};
ghost use Rattle.git_objects.specs.Entries.{body_text, is_dir};
ghost use Rattle.git_objects.specs.Paths.{is_nil};
ghost use Rattle.git_objects.specs.Trees.{rests};
ghost use Rattle.object_store.specs.Growth.{IsGrownBy};
ghost use Rattle.object_store.specs.Objects.{has_child};
ghost use Rattle.object_store.specs.Unfolding.{StandsFor};
ghost use Rattle.path_trees.specs.Listed.{named};
ghost use Rattle.path_trees.specs.Standing.{node};
ghost use Rattle.path_trees.specs.Walked.{behind};
ghost use Rattle.filter_apply.specs.Faults.{IsApplyFault};
ghost use Rattle.filter_apply.specs.Hands.{IsPlacedObject};

use crate::ApplyError;
use git_objects::{Component, Mode, Name, add_entry, name_bytes_law};
use object_store::{Store, store_law};
use path_trees::{Found, taken_in};
use std::alloc::{AllocError, Global};

/// The tree that has at the target what is found there, and nothing else. Its directories are made from the innermost
/// out, and nothing is read.
pub fn placed(
    alloc: Global,
    store: &mut Store,
    target: &[Component],
    found: Found,
) -> Result<Name, ApplyError>
    requires held { has_child store.old found.mode found.name.0 ≡ true }
    requires tree { (is_dir found.mode ≡ true) ⊎ (is_nil target.now ≡ false) }
    ensures ok { IfOk result (λ n. StandsFor store.new n.0 (behind target.now (rests (node store.old found)))) }
    ensures err { IfErr result (IsApplyFault (IsPlacedObject target.now (rests (node store.old found))) store.new) }
    ensures store { IsGrownBy (IsPlacedObject target.now (rests (node store.old found))) store.old store.new }
{
    store_law(store);
    name_bytes_law(&found.name);
    let mut found = found;
    let mut level = target.len();
    'levels: while level > 0 {
        level -= 1;
        let body = line_of(alloc, target[level].bytes(), &found)?;
        let name = taken_in(store, &body)?;
        found = Found {
            mode: Mode::Dir,
            name,
        };
    }
    Ok(found.name)
}

// The body of a directory that has one component.
fn line_of(alloc: Global, component: &[u8], found: &Found) -> Result<Vec<u8>, AllocError>
    ensures { IfOk result (λ body. body.items ≡ body_text (named component.now found.now ∷ [])) }
{
    let mut body = Vec::new(alloc);
    add_entry(&mut body, found.mode, component, &found.name)?;
    Ok(body)
}
