// The names that stand in front of what is new.
ghost use Rattle.std.specs.Prelude.{◌≡◌, ◌++◌, ◌∷◌, [], List, flat_map, true, IfErr, IfOk, IsSome};
ghost use Rattle.git_objects.specs.Paths.{Bytes};
ghost use Rattle.commit_graph.specs.Graphs.{place_of};
ghost use Rattle.filter_text.specs.Shapes.{shape};
ghost use Rattle.state_items.specs.Items.{Held};
ghost use Rattle.workspace.specs.Laws.{IsUsable};
ghost use Rattle.proj_commands.specs.Export.{export_hand};
ghost use Rattle.proj_commands.specs.Makes.{IsState, IsStateOf};
ghost use Rattle.proj_commands.specs.Lines.{tag_line};
ghost use Rattle.read_cli.specs.Looks.{IsAtHand, IsStill, IsUnshown};
ghost use Rattle.read_cli.specs.Outputs.{has_tags, log_line, names_text};
ghost use Rattle.read_cli.specs.declared.words.Beside.TheVariants.{Names};

use crate::reports::log_lines;
use crate::words::Beside;
use filter_text::Filter;
use git_objects::Name;
use history_ground::shown_before;
use proj_cli::Outcome;
use proj_commands::{apply_outcome, shown_tags, tags_report};
use repo_ground::State;
use std::alloc::{AllocError, Global};
use tag_objects::Tag;

/// Whether tags stand behind the commits.
pub fn has_tags(beside: Beside) -> bool
    ensures { result ≡ has_tags beside }
{
    match beside {
        Beside::Nothing => false,
        Beside::Tags | Beside::Names => true,
    }
}

// The line of the head and its projection.
fn head_lines(
    alloc: Global,
    state: &mut State,
    filter: &Filter,
    head: &Name,
) -> Result<Vec<u8>, Outcome>
    requires usable { IsUsable (shape filter.now) }
    requires state { IsState state.old }
    requires head { IsSome (place_of head.now.0 state.old.basis.graph) }
    ensures ok { (items : List Bytes) (h : Held) → IsStateOf items h state.old → IfOk result (λ lines.
        (lines.items ≡ log_line h (shape filter.now) head.now.0 head.now.0)
        × IsStill true items h state.old (shape filter.now) head.now.0 state.new) }
    ensures err { (items : List Bytes) (h : Held) → IsStateOf items h state.old → IfErr result
        (IsUnshown (IsAtHand state.old.basis.store (export_hand true h (shape filter.now) head.now.0 ∷ []))) }
{
    let shown = match shown_before(alloc, &mut state.ground, filter, head, &[*head]) {
        Err(error) => return Err(apply_outcome(error)),
        Ok(shown) => shown,
    };
    match log_lines(alloc, &[*head], &shown) {
        Err(_) => Err(Outcome::OutOfMemory),
        Ok(lines) => Ok(lines),
    }
}

// These lines, those of tags, and an empty one.
fn with_tags(alloc: Global, lines: Vec<u8>, tags: &[Tag]) -> Result<Vec<u8>, AllocError>
    ensures { IfOk result (λ all. all.items ≡ lines.items ++ (flat_map tag_line tags.now ++ 10 ∷ [])) }
{
    let mut all = lines;
    all.extend_from_slice(&tags_report(alloc, tags)?)?;
    all.push(b'\n')?;
    Ok(all)
}

// The lines of the head and of all tags that are shown, and an empty one.
fn name_lines(
    alloc: Global,
    state: &mut State,
    filter: &Filter,
    head: &Name,
) -> Result<Vec<u8>, Outcome>
    requires usable { IsUsable (shape filter.now) }
    requires state { IsState state.old }
    requires head { IsSome (place_of head.now.0 state.old.basis.graph) }
    ensures ok { (items : List Bytes) (h : Held) → IsStateOf items h state.old → IfOk result (λ lines.
        (lines.items ≡ names_text Names h (shape filter.now) head.now.0)
        × IsStill true items h state.old (shape filter.now) head.now.0 state.new) }
    ensures err { (items : List Bytes) (h : Held) → IsStateOf items h state.old → IfErr result
        (IsUnshown (IsAtHand state.old.basis.store (export_hand true h (shape filter.now) head.now.0 ∷ []))) }
{
    let lines = match head_lines(alloc, state, filter, head) {
        Err(outcome) => return Err(outcome),
        Ok(lines) => lines,
    };
    let tags = match shown_tags(alloc, state, filter, head) {
        Err(error) => return Err(apply_outcome(error)),
        Ok(tags) => tags,
    };
    match with_tags(alloc, lines, &tags) {
        Err(_) => Err(Outcome::OutOfMemory),
        Ok(lines) => Ok(lines),
    }
}

/// The lines that stand in front of what is new: none, where no names are asked for.
pub fn lines_before(
    alloc: Global,
    state: &mut State,
    filter: &Filter,
    head: &Name,
    beside: Beside,
) -> Result<Vec<u8>, Outcome>
    requires usable { IsUsable (shape filter.now) }
    requires state { IsState state.old }
    requires head { IsSome (place_of head.now.0 state.old.basis.graph) }
    ensures ok { (items : List Bytes) (h : Held) → IsStateOf items h state.old → IfOk result (λ lines.
        (lines.items ≡ names_text beside h (shape filter.now) head.now.0)
        × IsStill (has_tags beside) items h state.old (shape filter.now) head.now.0 state.new) }
    ensures err { (items : List Bytes) (h : Held) → IsStateOf items h state.old → IfErr result
        (IsUnshown (IsAtHand state.old.basis.store
        (export_hand (has_tags beside) h (shape filter.now) head.now.0 ∷ []))) }
{
    match beside {
        Beside::Nothing => Ok(Vec::new(alloc)),
        Beside::Tags => Ok(Vec::new(alloc)),
        Beside::Names => name_lines(alloc, state, filter, head),
    }
}
