// The refs that a batch moves.
ghost use Rattle.std.specs.Prelude.{◌≡◌, filter, map, IfOk};
ghost use Rattle.fast_import.specs.Replaying.{setting_value};
ghost use Rattle.ref_store.specs.Pairs.{pairs};
ghost use Rattle.repo_ground.specs.Moving.{moves_in, with_heads};

use fast_import::Setting;
use git_objects::Name;
use path_names::RefName;
use ref_store::Refs;
use std::alloc::{AllocError, Global};

// Whether a ref gets another commit.
fn moves(refs: &Refs, setting: &Setting) -> bool
    ensures { result ≡ moves_in refs.now (setting_value setting.now) }
{
    match refs.get(&setting.refname) {
        None => true,
        Some(old) => setting.head != old,
    }
}

/// Those of the settings that give a ref another commit.
pub(crate) fn moved(
    alloc: Global,
    refs: &Refs,
    settings: &[Setting],
) -> Result<Vec<(RefName, Name)>, AllocError>
    ensures { IfOk result (λ v. pairs v.items ≡ filter (moves_in refs.now) (map setting_value settings.now)) }
{
    let mut found = Vec::new(alloc);
    for setting in settings {
        if moves(refs, setting) {
            found.push((setting.refname.copy(alloc)?, setting.head))?;
        }
    }
    Ok(found)
}

/// A copy of the refs in which these have those commits.
pub(crate) fn with_moved(
    alloc: Global,
    refs: &Refs,
    moved: &[(RefName, Name)],
) -> Result<Refs, AllocError>
    ensures { IfOk result (λ after. after ≡ with_heads refs.now (pairs moved.now)) }
{
    let mut after = refs.copy()?;
    for entry in moved {
        let (refname, head) = entry;
        after.set(refname.copy(alloc)?, *head)?;
    }
    Ok(after)
}
