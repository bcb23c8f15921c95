// The originals of pushed commits.
ghost use Rattle.std.specs.Prelude.{◌≡◌, ◌≤◌, ◌++◌, ◌∷◌, [], List, true, length, IfOk, IfErr};
ghost use Rattle.std.specs.Prelude.{IsSome, OnOk};
ghost use Rattle.git_objects.specs.Snapshots.{Snapshot, tree_at};
ghost use Rattle.git_objects.specs.declared.kind.Kind.TheVariants.{Commit, Tree};
ghost use Rattle.git_objects.specs.declared.limits.TheConstants.{STREAM_BYTES};
ghost use Rattle.commit_graph.specs.Graphs.{place_of};
ghost use Rattle.object_store.specs.Objects.{has};
ghost use Rattle.object_store.specs.Unfolding.{flat};
ghost use Rattle.filter_text.specs.Shapes.{shape};
ghost use Rattle.workspace.specs.Laws.{IsUsable};
ghost use Rattle.projection_ground.specs.Grounds.{IsGround, commits_of};
ghost use Rattle.fast_import.specs.Standing.{AreCommitsIn, IsCommitIn};
ghost use Rattle.push_back.specs.Originals.{AreOriginals, Grows, IsMadeFor, IsOriginal, IsOriginalError};

use crate::trees::original_tree;
use crate::{OriginalError, TreeRefusal};
use commit_map::Shown;
use fast_import::Made;
use filter_text::Filter;
use git_objects::{Kind, Name, name_of};
use history_ground::put_commit;
use projection_ground::Ground;
use projection_laws::own_body;
use std::alloc::{AllocError, Global};

// Works out the original of a pushed commit upon the original commit before it, where the commit before the pushed one
// shows `seen`; and puts it into the store.
fn original(
    alloc: Global,
    ground: &mut Ground,
    filter: &Filter,
    before: Made,
    seen: Name,
    pushed: &Made,
) -> Result<Made, TreeRefusal>
    requires usable { IsUsable (shape filter.now) }
    requires ground { IsGround ground.old }
    requires head { has Commit ground.old.store before.name.0 ≡ true }
    requires base { has Tree ground.old.store before.tree.0 ≡ true }
    requires seen { has Tree ground.old.store seen.0 ≡ true }
    requires pushed { (c : Snapshot) × IsCommitIn ground.old.store pushed.now c }
    ensures { (c : Snapshot) → IsCommitIn ground.old.store pushed.now c
        → IsOriginal (shape filter.now) before.name.0 (flat ground.old.store before.tree.0)
        (flat ground.old.store seen.0) c ground.old ground.new result }
{
    let tree = original_tree(alloc, ground, filter, before.tree, seen, pushed.tree)?;
    let upon = [Shown {
        commit: before.name,
        tree: before.tree,
    }];
    let body = own_body(alloc, &ground.store, &pushed.name, tree, &upon)?;
    let name = name_of(Kind::Commit, &body);
    put_commit(&mut ground.store, body)?;
    Ok(Made { name, tree })
}

// Puts a name behind the others.
fn add_name(names: &mut Vec<Name>, name: Name) -> Result<(), AllocError>
    ensures { OnOk result (names.new.items ≡ names.old.items ++ name ∷ []) }
{
    names.push(name)?;
    Ok(())
}

// The same, with the name of the original put behind others.
fn add_original(
    alloc: Global,
    ground: &mut Ground,
    filter: &Filter,
    before: Made,
    seen: Name,
    pushed: &Made,
    names: &mut Vec<Name>,
) -> Result<Made, TreeRefusal>
    requires usable { IsUsable (shape filter.now) }
    requires ground { IsGround ground.old }
    requires head { has Commit ground.old.store before.name.0 ≡ true }
    requires base { has Tree ground.old.store before.tree.0 ≡ true }
    requires seen { has Tree ground.old.store seen.0 ≡ true }
    requires pushed { (c : Snapshot) × IsCommitIn ground.old.store pushed.now c }
    ensures original { (c : Snapshot) → IsCommitIn ground.old.store pushed.now c
        → IsOriginal (shape filter.now) before.name.0 (flat ground.old.store before.tree.0)
        (flat ground.old.store seen.0) c ground.old ground.new result }
    ensures names { IfOk result (λ m. names.new.items ≡ names.old.items ++ m.name ∷ []) }
{
    let made = original(alloc, ground, filter, before, seen, pushed)?;
    add_name(names, made.name)?;
    Ok(made)
}

// Works out the originals of pushed commits upon an original commit, the first of them upon that one, each other upon
// the original before it.
fn originals_upon(
    alloc: Global,
    ground: &mut Ground,
    filter: &Filter,
    head: Made,
    seen: Name,
    commits: &[Made],
) -> Result<Vec<Name>, OriginalError>
    requires usable { IsUsable (shape filter.now) }
    requires ground { IsGround ground.old }
    requires head { has Commit ground.old.store head.name.0 ≡ true }
    requires base { has Tree ground.old.store head.tree.0 ≡ true }
    requires seen { has Tree ground.old.store seen.0 ≡ true }
    requires commits { (cs : List Snapshot) × AreCommitsIn ground.old.store commits.now cs }
    requires few { length commits.now ≤ STREAM_BYTES }
    ensures ok { (cs : List Snapshot) → AreCommitsIn ground.old.store commits.now cs
        → IfOk result (λ names. AreOriginals (shape filter.now) head.name.0 (flat ground.old.store head.tree.0)
        (flat ground.old.store seen.0) cs ground.new.store names.items) }
    ensures err { (cs : List Snapshot) → AreCommitsIn ground.old.store commits.now cs
        → IfErr result (IsOriginalError (shape filter.now) head.name.0 (flat ground.old.store head.tree.0)
        (flat ground.old.store seen.0) cs ground.new.store) }
    ensures same { (cs : List Snapshot) → AreCommitsIn ground.old.store commits.now cs
        → Grows (IsMadeFor (shape filter.now) head.name.0 (flat ground.old.store head.tree.0)
        (flat ground.old.store seen.0) cs) ground.old ground.new }
{
    let mut names = Vec::new(alloc);
    let mut before = head;
    let mut shown = seen;
    let mut n = 0u32;
    for pushed in commits {
        n += 1;
        match add_original(alloc, ground, filter, before, shown, pushed, &mut names) {
            Ok(made) => {
                before = made;
                shown = pushed.tree;
            }
            Err(refusal) => return Err(OriginalError { n, refusal }),
        }
    }
    Ok(names)
}

/// Works out the originals of pushed commits and puts them into the store: the first upon the commit `head`, each other
/// upon the original before it. `seen` is the tree that is shown of the head. At the first commit that is refused it
/// ends; what was put before stays.
pub fn originals(
    alloc: Global,
    ground: &mut Ground,
    filter: &Filter,
    head: &Name,
    seen: Name,
    commits: &[Made],
) -> Result<Vec<Name>, OriginalError>
    requires usable { IsUsable (shape filter.now) }
    requires ground { IsGround ground.old }
    requires head { IsSome (place_of head.now.0 ground.old.graph) }
    requires seen { has Tree ground.old.store seen.0 ≡ true }
    requires commits { (cs : List Snapshot) × AreCommitsIn ground.old.store commits.now cs }
    requires few { length commits.now ≤ STREAM_BYTES }
    ensures ok { (cs : List Snapshot) → AreCommitsIn ground.old.store commits.now cs
        → IfOk result (λ names. AreOriginals (shape filter.now)
        head.now.0 (tree_at (commits_of ground.old) head.now.0)
        (flat ground.old.store seen.0) cs ground.new.store names.items) }
    ensures err { (cs : List Snapshot) → AreCommitsIn ground.old.store commits.now cs
        → IfErr result (IsOriginalError (shape filter.now) head.now.0 (tree_at (commits_of ground.old) head.now.0)
        (flat ground.old.store seen.0) cs ground.new.store) }
    ensures same { (cs : List Snapshot) → AreCommitsIn ground.old.store commits.now cs
        → Grows (IsMadeFor (shape filter.now) head.now.0 (tree_at (commits_of ground.old) head.now.0)
        (flat ground.old.store seen.0) cs) ground.old ground.new }
{
    let Some(place) = ground.graph.index_of(head) else {
        unreachable!()
    };
    let root = ground.graph.tree(place);
    let before = Made {
        name: *head,
        tree: root,
    };
    originals_upon(alloc, ground, filter, before, seen, commits)
}
