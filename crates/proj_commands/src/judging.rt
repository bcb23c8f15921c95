// Judging a command: its words and its filter, before any device is touched.
ghost use Rattle.std.specs.Prelude.{◌≡◌, Err, IfErr, IfOk, true};
ghost use Rattle.proj_words.specs.Views.{command_of};
ghost use Rattle.proj_words.specs.Words.{Unknown, is_formed};
ghost use Rattle.proj_commands.specs.Judging.{IsJudged, IsUnjudged};

use crate::filters::sound_filter;
use crate::querying::{JudgedQuery, judge_query};
use crate::subjects::{Subject, path_in, read_subject};
use commit_map::Rule;
use filter_text::Filter;
use git_objects::{Bytes, Name};
use path_names::Path;
use proj_words::{Command, Outcome};
use std::alloc::Global;

/// What a certificate is asked to prove: what a sound filter shows of a commit at a path.
#[derive(Drop)]
pub struct Claim {
    pub commit: Name,
    pub filter: Filter,
    pub path: Path,
}

/// A command that is judged: what is left of it to do. A batch and a trial are made of several commands, and are none.
pub enum Judged {
    /// Whether refs may move anywhere.
    Import(bool),
    Project(Subject),
    Push(Subject),
    PushMerges(Subject),
    Export(Subject),
    ExportTags(Subject),
    Name(Subject),
    Rule(Rule),
    Ask(JudgedQuery),
    Verify(Claim),
    /// Each of a user, whom the policy has to let do it.
    AsProject(Bytes, Subject),
    AsPush(Bytes, Subject),
    AsExport(Bytes, Subject),
}

// Written out, as the drop of a subject is.
impl Drop for Judged {
    fn drop(self) {
        match self {
            Judged::Import(_) | Judged::Rule(_) => {}
            Judged::Project(_)
            | Judged::Push(_)
            | Judged::PushMerges(_)
            | Judged::Export(_)
            | Judged::ExportTags(_)
            | Judged::Name(_) => {}
            Judged::Ask(_) | Judged::Verify(_) => {}
            Judged::AsProject(_, _) | Judged::AsPush(_, _) | Judged::AsExport(_, _) => {}
        }
    }
}

// A user's name.
fn user_name(alloc: Global, user: &[u8]) -> Result<Bytes, Outcome>
    ensures ok { IfOk result (λ name. name ≡ user.now) }
    ensures err { IfErr result (λ e. e ≡ Outcome.OutOfMemory) }
{
    match user.to_vec(alloc) {
        Ok(name) => Ok(Bytes::of(name)),
        Err(_) => Err(Outcome::OutOfMemory),
    }
}

/// Judges a command: what it is to do, or its refusal.
pub fn judge(alloc: Global, asked: Command<'_>) -> Result<Judged, Outcome>
    requires { is_formed (command_of asked) ≡ true }
    ensures ok { IfOk result (IsJudged (command_of asked.entry)) }
    ensures err { IfErr result (IsUnjudged (command_of asked.entry)) }
    ensures idle { command_of asked.entry ≡ Unknown → result ≡ Err Outcome.Usage }
{
    match asked {
        Command::Import(force) => Ok(Judged::Import(force)),
        Command::Project(refname, filter) => {
            let subject = read_subject(alloc, refname, filter)?;
            Ok(Judged::Project(subject))
        }
        Command::Push(refname, filter) => {
            let subject = read_subject(alloc, refname, filter)?;
            Ok(Judged::Push(subject))
        }
        Command::PushMerges(refname, filter) => {
            let subject = read_subject(alloc, refname, filter)?;
            Ok(Judged::PushMerges(subject))
        }
        Command::Export(refname, filter) => {
            let subject = read_subject(alloc, refname, filter)?;
            Ok(Judged::Export(subject))
        }
        Command::ExportTags(refname, filter) => {
            let subject = read_subject(alloc, refname, filter)?;
            Ok(Judged::ExportTags(subject))
        }
        Command::Name(refname, filter) => {
            let subject = read_subject(alloc, refname, filter)?;
            Ok(Judged::Name(subject))
        }
        Command::Rule(number) => match Rule::of(number) {
            Some(rule) => Ok(Judged::Rule(rule)),
            None => unreachable!(),
        },
        Command::Ask(query) => {
            let query = judge_query(alloc, query)?;
            Ok(Judged::Ask(query))
        }
        Command::Verify(commit, filter, path) => {
            let filter = sound_filter(alloc, filter)?;
            let path = path_in(alloc, path)?;
            match Name::from_hex(commit) {
                Some(commit) => Ok(Judged::Verify(Claim {
                    commit,
                    filter,
                    path,
                })),
                None => unreachable!(),
            }
        }
        Command::AsProject(user, refname, filter) => {
            let subject = read_subject(alloc, refname, filter)?;
            Ok(Judged::AsProject(user_name(alloc, user)?, subject))
        }
        Command::AsPush(user, refname, filter) => {
            let subject = read_subject(alloc, refname, filter)?;
            Ok(Judged::AsPush(user_name(alloc, user)?, subject))
        }
        Command::AsExport(user, refname, filter) => {
            let subject = read_subject(alloc, refname, filter)?;
            Ok(Judged::AsExport(user_name(alloc, user)?, subject))
        }
        Command::Batch => Err(Outcome::Usage),
        Command::Trial(_) => Err(Outcome::Usage),
        Command::Unknown => Err(Outcome::Usage),
    }
}
