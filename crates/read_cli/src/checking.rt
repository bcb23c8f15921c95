// What a filter shows of a commit, and what its workspace's file gives.
ghost use Rattle.std.specs.Prelude.{◌≡◌, ◌++◌, ◌∷◌, [], List, decimal, length, true, IfErr, IfOk};
ghost use Rattle.std.specs.Prelude.{IsSome, OnOk};
ghost use Rattle.git_objects.specs.Paths.{Bytes};
ghost use Rattle.git_objects.specs.Snapshots.{tree_at};
ghost use Rattle.git_objects.specs.declared.kind.Kind.TheVariants.{Tree};
ghost use Rattle.object_store.specs.Objects.{has};
ghost use Rattle.object_store.specs.Sizes.{held_number};
ghost use Rattle.object_store.specs.Unfolding.{flat};
ghost use Rattle.commit_graph.specs.Graphs.{place_of};
ghost use Rattle.filter_text.specs.Shapes.{shape};
ghost use Rattle.filter_apply.specs.Faults.{IsApplyFault};
ghost use Rattle.workspace.specs.Laws.{IsUsable};
ghost use Rattle.workspace.specs.Workspaces.{split};
ghost use Rattle.projection_ground.specs.Grounds.{Extends, IsGround, IsShownOf, commits_of};
ghost use Rattle.state_items.specs.Items.{Held};
ghost use Rattle.proj_commands.specs.Hands.{seen_hand};
ghost use Rattle.proj_commands.specs.Makes.{IsState, IsStateOf};
ghost use Rattle.read_cli.specs.Looks.{at_head, IsReport, IsUnreported};
ghost use Rattle.read_cli.specs.Outputs.{check_output, check_text, gives_text, place_line, workspace_line};

use filter_apply::ApplyError;
use filter_text::Filter;
use git_objects::{Bytes, Name};
use history_ground::{commit_tree, shown_tree};
use itoa::Buffer;
use object_store::Store;
use path_names::{Path, quote};
use proj_cli::{Outcome, outcome_text};
use proj_commands::{Subject, apply_outcome};
use projection_ground::Ground;
use repo_ground::State;
use std::alloc::{AllocError, Global};
use workspace::{LeafGives, file_place, leaf_gives, leaf_where};

// Adds a word and a number as a line.
fn add_number_line(report: &mut Vec<u8>, word: &[u8], n: u64) -> Result<(), AllocError>
    ensures { OnOk result (report.new.items ≡ report.old.items ++ word.now ++ decimal n ++ 10 ∷ []) }
{
    let mut buffer = Buffer::new();
    report.extend_from_slice(word)?;
    report.extend_from_slice(buffer.format(n).as_bytes())?;
    report.push(b'\n')?;
    Ok(())
}

// Adds what the leaf at a workspace place gives, as the end of a line.
fn add_given(alloc: Global, report: &mut Vec<u8>, given: LeafGives) -> Result<(), AllocError>
    ensures { OnOk result (report.new.items ≡ report.old.items ++ gives_text given) }
{
    match given {
        LeafGives::Absent => report.extend_from_slice(b"absent\n"),
        LeafGives::NoFile => report.extend_from_slice(b"no file\n"),
        LeafGives::Unreadable => report.extend_from_slice(b"syntax\n"),
        LeafGives::Unsound(fault) => {
            let text = outcome_text(alloc, &Outcome::from(fault))?;
            report.extend_from_slice(&text)
        }
        LeafGives::Items(count) => add_number_line(report, b"items ", count as u64),
    }
}

// Adds the line of a workspace whose file has this place.
fn add_place_line(
    alloc: Global,
    report: &mut Vec<u8>,
    place: &Option<Path>,
    given: LeafGives,
) -> Result<(), AllocError>
    ensures { OnOk result (report.new.items ≡ report.old.items ++ place_line given place.now) }
{
    match place {
        None => report.extend_from_slice(b"workspace none\n"),
        Some(path) => {
            let text = path.text(alloc)?;
            let text = quote(alloc, &text)?;
            report.extend_from_slice(b"workspace ")?;
            report.extend_from_slice(&text)?;
            report.push(b' ')?;
            add_given(alloc, report, given)
        }
    }
}

// The line of a filter's workspace for a tree; nothing where it has none.
fn workspace_lines(
    alloc: Global,
    store: &Store,
    filter: &Filter,
    root: Name,
) -> Result<Vec<u8>, AllocError>
    requires usable { IsUsable (shape filter.now) }
    requires root { has Tree store.now root.0 ≡ true }
    ensures { IfOk result (λ lines. lines.items
        ≡ workspace_line (shape filter.now) (flat store.now root.0) (split (shape filter.now))) }
{
    let mut lines = Vec::new(alloc);
    let place = file_place(alloc, filter)?;
    let leaf = leaf_where(store, root, &place);
    if let Some(given) = leaf_gives(alloc, store, filter, leaf)? {
        add_place_line(alloc, &mut lines, &place, given)?;
    }
    Ok(lines)
}

// How many files a tree has.
fn files_of(store: &Store, tree: &Name) -> u32
    requires { has Tree store.now tree.now.0 ≡ true }
    ensures { result ≡ held_number (length (flat store.now tree.now.0)) }
{
    match store.stats(tree) {
        None => unreachable!(),
        Some(stats) => stats.files,
    }
}

// What a filter shows of the commit of that name, and what its workspace's file gives.
fn checked(
    alloc: Global,
    ground: &mut Ground,
    filter: &Filter,
    head: &Name,
) -> Result<Vec<u8>, ApplyError>
    requires usable { IsUsable (shape filter.now) }
    requires ground { IsGround ground.old }
    requires head { IsSome (place_of head.now.0 ground.old.graph) }
    ensures ok { IfOk result (λ report. report.items
        ≡ check_text (shape filter.now) (tree_at (commits_of ground.old) head.now.0)) }
    ensures same { Extends (IsShownOf (shape filter.now) (commits_of ground.old)) ground.old ground.new }
    ensures err { IfErr result (IsApplyFault (IsShownOf (shape filter.now) (commits_of ground.old)) ground.new.store) }
{
    let root = commit_tree(ground, head);
    let lines = workspace_lines(alloc, &ground.store, filter, root)?;
    let tree = shown_tree(alloc, ground, filter, head)?;
    let files = files_of(&ground.store, &tree);
    let mut report = Vec::new(alloc);
    add_number_line(&mut report, b"files ", u64::from(files))?;
    report.extend_from_slice(&lines)?;
    Ok(report)
}

/// The lines of what a filter shows of a ref's commit, and of what its workspace's file gives.
pub fn check(alloc: Global, subject: &Subject, state: &mut State) -> Result<Bytes, Outcome>
    requires usable { IsUsable (shape subject.now.filter) }
    requires state { IsState state.old }
    ensures report { (items : List Bytes) (h : Held) → IsStateOf items h state.old →
        IsReport state.old.basis.store
        (at_head subject.now.refname h (seen_hand h (shape subject.now.filter)))
        (at_head subject.now.refname h (check_output h (shape subject.now.filter))) result }
    ensures early { IfErr result IsUnreported }
{
    let Some(head) = state.head(&subject.refname) else {
        return Err(Outcome::UnknownRef);
    };
    let report = match checked(alloc, &mut state.ground, &subject.filter, &head) {
        Err(error) => return Err(apply_outcome(error)),
        Ok(report) => report,
    };
    Ok(Bytes::of(report))
}
