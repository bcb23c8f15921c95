// Judging a form: its filter is read before the store is looked at.
ghost use Rattle.std.specs.Prelude.{◌≡◌, map, string_bytes, IfErr, IfOk, IsSome, Some};
ghost use Rattle.git_objects.specs.Parts.{name_bytes};
ghost use Rattle.read_cli.specs.Readings.{names_of};
ghost use Rattle.read_cli.specs.Looks.{IsAsked, IsFormed, IsUnjudged, form_reading};

use crate::words::{Beside, Form};
use git_objects::Name;
use path_names::RefName;
use proj_cli::Outcome;
use proj_commands::{Subject, read_subject, ref_name};
use std::alloc::{AllocError, Global};

/// What is asked of a store.
pub enum Asked {
    /// The refs.
    Refs,
    /// The projection of each commit of a history.
    Log(Subject),
    /// What a filter shows of a ref's commit, and what its workspace's file gives.
    Check(Subject),
    /// The projected history without what is reached from these commits, and what stands beside.
    New(Beside, Subject, Vec<Name>),
    /// The history itself without what is reached from these commits.
    Originals(RefName, Vec<Name>),
}

// Written out, so that to drop one is a call: a derived drop would stand in full in each function that drops one, and
// in its proof.
impl Drop for Asked {
    fn drop(self) {
        match self {
            Asked::Refs => {}
            Asked::Log(_) | Asked::Check(_) => {}
            Asked::New(_, _, _) => {}
            Asked::Originals(_, _) => {}
        }
    }
}

// The names that words are.
fn names_of(alloc: Global, words: &[String]) -> Result<Vec<Name>, AllocError>
    requires { IsSome (names_of (map (λ word. string_bytes word) words.now)) }
    ensures { IfOk result (λ names.
        names_of (map (λ word. string_bytes word) words.now) ≡ Some (map name_bytes names.items)) }
{
    let mut names = Vec::new(alloc);
    for word in words {
        let Some(name) = Name::from_hex(word.as_bytes()) else {
            unreachable!();
        };
        names.push(name)?;
    }
    Ok(names)
}

/// What a form asks for, or why its filter's text is of none.
pub fn judge(alloc: Global, form: Form<'_>) -> Result<Asked, Outcome>
    requires { IsFormed form }
    ensures ok { IfOk result (IsAsked (form_reading form.entry)) }
    ensures err { IfErr result (IsUnjudged (form_reading form.entry)) }
{
    match form {
        Form::Refs => Ok(Asked::Refs),
        Form::Log(refname, filter) => Ok(Asked::Log(read_subject(alloc, refname, filter)?)),
        Form::Check(refname, filter) => Ok(Asked::Check(read_subject(alloc, refname, filter)?)),
        Form::New(beside, refname, filter, haves) => {
            let subject = read_subject(alloc, refname, filter)?;
            Ok(Asked::New(beside, subject, names_of(alloc, haves)?))
        }
        Form::Originals(refname, haves) => {
            let refname = ref_name(alloc, refname)?;
            Ok(Asked::Originals(refname, names_of(alloc, haves)?))
        }
        Form::Unknown => Err(Outcome::Usage),
    }
}
