// What commands are about: a ref and a filter, and a path.
ghost use Rattle.std.specs.Prelude.{◌≡◌, ◌⊎◌, Err, Ok, IfErr, IfOk, true};
ghost use Rattle.filter_text.specs.Shapes.{shape};
ghost use Rattle.std.specs.Result.{is_ok};
ghost use Rattle.path_names.specs.PathTexts.{path_of};
ghost use Rattle.path_names.specs.RefNames.{is_ref_name};
ghost use Rattle.workspace.specs.Laws.{IsUsable};
ghost use Rattle.proj_commands.specs.Audit.{path_by};
ghost use Rattle.proj_commands.specs.Filters.{sound};

use crate::filters::sound_filter;
use filter_text::Filter;
use path_names::{Path, PathFault, RefFault, RefName};
use proj_words::Outcome;
use std::alloc::Global;

/// What a command is about: a sound filter, and a ref name.
pub struct Subject {
    pub filter: Filter,
    pub refname: RefName,
}

// Written out, so that to drop one is a call: a derived drop would stand in full in each function that drops one, and
// in its proof.
impl Drop for Subject {
    fn drop(self) {
        let Subject {
            filter: _,
            refname: _,
        } = self;
    }
}

/// The ref name that a text is.
pub fn ref_name(alloc: Global, text: &[u8]) -> Result<RefName, Outcome>
    requires { is_ref_name text.now ≡ true }
    ensures ok { IfOk result (λ name. name ≡ text.now) }
    ensures err { IfErr result (λ e. e ≡ Outcome.OutOfMemory) }
{
    match RefName::parse(alloc, text) {
        Ok(refname) => Ok(refname),
        Err(RefFault::OutOfMemory) => Err(Outcome::OutOfMemory),
        Err(RefFault::Bad) => unreachable!(),
    }
}

/// The path that a text is.
pub(crate) fn path_in(alloc: Global, text: &[u8]) -> Result<Path, Outcome>
    requires { is_ok (path_of text.now) ≡ true }
    ensures ok { IfOk result (λ path. path_by text.now ≡ path) }
    ensures err { IfErr result (λ e. e ≡ Outcome.OutOfMemory) }
{
    match Path::parse(alloc, text) {
        Ok(path) => Ok(path),
        Err(PathFault::OutOfMemory) => Err(Outcome::OutOfMemory),
        Err(_) => unreachable!(),
    }
}

/// The subject that two texts spell, or why the filter's text is of none.
pub fn read_subject(alloc: Global, refname: &[u8], filter: &[u8]) -> Result<Subject, Outcome>
    requires { is_ref_name refname.now ≡ true }
    ensures refname { IfOk result (λ s. s.refname ≡ refname.now) }
    ensures sound { IfOk result (λ s. sound filter.now ≡ Ok (shape s.filter)) }
    ensures usable { IfOk result (λ s. IsUsable (shape s.filter)) }
    ensures err { IfErr result (λ e. (e ≡ Outcome.OutOfMemory) ⊎ (sound filter.now ≡ Err e)) }
{
    let filter = sound_filter(alloc, filter)?;
    let refname = ref_name(alloc, refname)?;
    Ok(Subject { filter, refname })
}
