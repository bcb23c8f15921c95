// What the policy of a store lets a user do.
ghost use Rattle.std.specs.Prelude.{◌≡◌, ◌⊎◌, List, [], Ok, Err, IfErr, IfOk, MatchResult, true, unwrap_or};
ghost use Rattle.git_objects.specs.Paths.{Bytes};
ghost use Rattle.git_objects.specs.Results.{refused_by};
ghost use Rattle.git_objects.specs.declared.kind.Kind.TheVariants.{Blob};
ghost use Rattle.object_store.specs.Objects.{body_of, has, has_child};
ghost use Rattle.filter_text.specs.Shapes.{shape};
ghost use Rattle.workspace.specs.Views.{leaf_value};
ghost use Rattle.workspace.specs.Workspaces.{text_of};
ghost use Rattle.proj_gate.specs.Policies.{rules};
ghost use Rattle.proj_gate.specs.Views.{act_value, rule_values};
ghost use Rattle.proj_words.specs.declared.outcome.Outcome.TheVariants.{BadPolicy};
ghost use Rattle.state_items.specs.Items.{Held};
ghost use Rattle.proj_commands.specs.Filters.{sound};
ghost use Rattle.proj_commands.specs.Judging.{IsSomeJudged, permission};
ghost use Rattle.proj_commands.specs.Makes.{IsState, IsStateOf};
ghost use Rattle.proj_commands.specs.Policy.{granted, policy_place, policy_text};

use crate::judging::Judged;
use crate::subjects::{Subject, ref_name};
use git_objects::{Component, Mode, Name};
use object_store::{Store, tree_of};
use path_names::Path;
use path_trees::Leaf;
use proj_gate::{Act, Policy, PolicyFault, Verdict};
use proj_words::Outcome;
use repo_ground::State;
use std::alloc::{AllocError, Global};
use workspace::leaf_at;

// The ref whose commit has the policy.
const POLICY_REF: &[u8] = b"refs/proj/policy";

// The path at which the policy stands.
fn policy_place(alloc: Global) -> Result<Path, AllocError>
    ensures { IfOk result (λ path. path ≡ policy_place) }
{
    let access = Component::of(b"access".to_vec(alloc)?);
    Path::of_parts(alloc, &[], &vec![in alloc; access]?)
}

// The content of a blob of the store.
fn blob_text<'a>(store: &'a Store, name: &Name) -> &'a [u8]
    requires held { has Blob store.now name.now.0 ≡ true }
    ensures { result.now ≡ body_of Blob store.now name.now.0 }
{
    match store.get(name) {
        None => unreachable!(),
        Some(object) => object.body,
    }
}

// The content of a file or an executable; a link and a module have none.
fn leaf_text(store: &Store, leaf: Leaf) -> &[u8]
    requires held { has_child store.now leaf.mode leaf.name.0 ≡ true }
    ensures { result.now ≡ unwrap_or (text_of (leaf_value store.now leaf)) [] }
{
    match leaf.mode {
        Mode::File => blob_text(store, &leaf.name),
        Mode::Exec => blob_text(store, &leaf.name),
        Mode::Link => &[],
        Mode::Module => &[],
        Mode::Dir => &[],
    }
}

// The policy's text at the head of its ref.
fn policy_text(alloc: Global, state: &State) -> Result<&[u8], Outcome>
    requires state { IsState state.now }
    ensures ok { (items : List Bytes) (h : Held) → IsStateOf items h state.now →
        IfOk result (λ text. text.now ≡ policy_text h) }
    ensures err { IfErr result (λ e. e ≡ Outcome.OutOfMemory) }
{
    let refname = ref_name(alloc, POLICY_REF)?;
    let place = policy_place(alloc)?;
    let Some(head) = state.head(&refname) else {
        return Ok(&[]);
    };
    let store = &state.ground.store;
    match leaf_at(store, tree_of(store, &head), &place) {
        None => Ok(&[]),
        Some(leaf) => Ok(leaf_text(store, leaf)),
    }
}

// The policy that the state has: that of the file or executable `access` at the head of `refs/proj/policy`.
fn policy_of(alloc: Global, state: &State) -> Result<Policy, Outcome>
    requires state { IsState state.now }
    ensures { (items : List Bytes) (h : Held) → IsStateOf items h state.now → MatchResult result
        (λ policy. rules (policy_text h) ≡ Ok (rule_values policy))
        (λ e. (e ≡ Outcome.OutOfMemory) ⊎ (refused_by BadPolicy (rules (policy_text h)) ≡ Err e)) }
{
    let text = policy_text(alloc, state)?;
    match Policy::parse(alloc, text) {
        Ok(policy) => Ok(policy),
        Err(PolicyFault::Bad { line }) => Err(Outcome::BadPolicy { line }),
        Err(PolicyFault::OutOfMemory) => Err(Outcome::OutOfMemory),
    }
}

/// Asks the policy that the state has whether it lets a user do this with a subject.
pub(crate) fn granted(
    alloc: Global,
    state: &State,
    user: &[u8],
    act: Act,
    subject: &Subject,
) -> Result<(), Outcome>
    requires state { IsState state.now }
    requires sound { (text : Bytes) × (sound text ≡ Ok (shape subject.now.filter)) }
    ensures { (items : List Bytes) (h : Held) → IsStateOf items h state.now → MatchResult result
        (λ _. granted h user.now (act_value act) subject.now.refname (shape subject.now.filter) ≡ Ok tt)
        (λ e. (e ≡ Outcome.OutOfMemory)
        ⊎ (granted h user.now (act_value act) subject.now.refname (shape subject.now.filter) ≡ Err e)) }
{
    let policy = policy_of(alloc, state)?;
    match policy.decide(user, act, &subject.refname, &subject.filter) {
        Verdict::Allowed { .. } => Ok(()),
        Verdict::Denied { rule } => Err(Outcome::Denied { rule }),
    }
}

/// Asks the policy that the state has whether it lets a command be done, where a user asks for it.
pub(crate) fn permitted(alloc: Global, judged: &Judged, state: &State) -> Result<(), Outcome>
    requires state { IsState state.now }
    requires judged { IsSomeJudged judged.now }
    ensures { (items : List Bytes) (h : Held) → IsStateOf items h state.now → MatchResult result
        (λ _. permission h judged.now ≡ Ok tt)
        (λ e. (e ≡ Outcome.OutOfMemory) ⊎ (permission h judged.now ≡ Err e)) }
{
    match judged {
        Judged::AsProject(user, subject) => granted(alloc, state, user.bytes(), Act::See, subject),
        Judged::AsPush(user, subject) => granted(alloc, state, user.bytes(), Act::Push, subject),
        Judged::AsExport(user, subject) => granted(alloc, state, user.bytes(), Act::See, subject),
        _ => Ok(()),
    }
}
