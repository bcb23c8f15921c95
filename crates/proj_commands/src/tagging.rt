// The annotated tags that are shown beside a projected history.
ghost use Rattle.std.specs.Prelude.{◌≡◌, ◌≢◌, List, Err, IfErr, IfOk, IsSome, map, zip};
ghost use Rattle.std.specs.List.{filter_map};
ghost use Rattle.std.specs.Option.{option_map};
ghost use Rattle.git_objects.specs.Parts.{name_bytes};
ghost use Rattle.git_objects.specs.Paths.{Bytes};
ghost use Rattle.commit_graph.specs.Graphs.{place_of};
ghost use Rattle.filter_apply.specs.Faults.{IsApplyFault};
ghost use Rattle.filter_text.specs.Shapes.{shape};
ghost use Rattle.history_ground.specs.Heads.{IsSeenObject};
ghost use Rattle.projection_ground.specs.Grounds.{Extends};
ghost use Rattle.proj_io.specs.Views.{KeeperView};
ghost use Rattle.state_items.specs.Changes.{NoPlan};
ghost use Rattle.state_items.specs.Items.{Held};
ghost use Rattle.workspace.specs.Laws.{IsUsable};
ghost use Rattle.proj_commands.specs.Cases.{query_case};
ghost use Rattle.proj_commands.specs.Export.{IsMadeBeside, tags_beside};
ghost use Rattle.proj_commands.specs.Makes.{IsMadeOf, IsState, IsStateOf};
ghost use Rattle.proj_commands.specs.Queries.{TagsOf};
ghost use Rattle.proj_commands.specs.Tags.{retargeted, retargeted_one, shown_tags};

use crate::lines::tags_report;
use crate::refusals::apply_outcome;
use crate::subjects::Subject;
use filter_apply::ApplyError;
use filter_text::Filter;
use git_objects::{Bytes, Name};
use history_ground::shown_before;
use proj_words::Outcome;
use repo_ground::State;
use std::alloc::{AllocError, Global};
use tag_objects::Tag;

// The commits of tags.
fn targets(alloc: Global, tags: &[Tag]) -> Result<Vec<Name>, AllocError>
    ensures { IfOk result (λ names. names.items ≡ map (λ t. t.target) tags.now) }
{
    let mut names = Vec::with_capacity(alloc, tags.len())?;
    for tag in tags {
        names.push(tag.target)?;
    }
    Ok(names)
}

// The tag of another commit.
fn retargeted(alloc: Global, tag: &Tag, target: Name) -> Result<Tag, AllocError>
    ensures { IfOk result (λ t. t ≡ retargeted tag.now target.0) }
{
    Ok(Tag {
        name: tag.name.copy(alloc)?,
        target,
        tagger: tag.tagger.copy(alloc)?,
        message: tag.message.copy(alloc)?,
    })
}

// The tags, each of its commit in the second list; without those that have none there.
fn retargeted_all(
    alloc: Global,
    tags: &[Tag],
    shown: &[Option<Name>],
) -> Result<Vec<Tag>, AllocError>
    ensures { IfOk result (λ ts. ts.items
        ≡ filter_map retargeted_one (zip tags.now (map (option_map name_bytes) shown.now))) }
{
    let mut found = Vec::new(alloc);
    for (tag, target) in tags.iter().zip(shown) {
        if let Some(target) = target {
            found.push(retargeted(alloc, tag, *target)?)?;
        }
    }
    Ok(found)
}

/// The state's tags of the commit `head` and of those before it that have a projection, each with the projection of its
/// commit.
pub fn shown_tags(
    alloc: Global,
    state: &mut State,
    filter: &Filter,
    head: &Name,
) -> Result<Vec<Tag>, ApplyError>
    requires usable { IsUsable (shape filter.now) }
    requires state { IsState state.old }
    requires head { IsSome (place_of head.now.0 state.old.basis.graph) }
    ensures ok { (items : List Bytes) (h : Held) → IsStateOf items h state.old →
        IfOk result (λ ts. ts.items ≡ shown_tags h (shape filter.now) head.now.0) }
    ensures same { Extends (IsSeenObject (shape filter.now) state.old.basis head.now.0)
        state.old.basis state.new.basis }
    ensures rest { state.new ≡ record state.old { basis = record state.new.basis { map = state.old.basis.map } } }
    ensures err { IfErr result
        (IsApplyFault (IsSeenObject (shape filter.now) state.old.basis head.now.0) state.new.basis.store) }
{
    let commits = targets(alloc, state.tags())?;
    let shown = shown_before(alloc, &mut state.ground, filter, head, &commits)?;
    let tags = retargeted_all(alloc, state.tags(), &shown)?;
    Ok(tags)
}

/// These tags where they are asked for, and else none.
pub fn tags_beside(
    alloc: Global,
    state: &mut State,
    filter: &Filter,
    head: &Name,
    tagged: bool,
) -> Result<Vec<Tag>, ApplyError>
    requires usable { IsUsable (shape filter.now) }
    requires state { IsState state.old }
    requires head { IsSome (place_of head.now.0 state.old.basis.graph) }
    ensures ok { (items : List Bytes) (h : Held) → IsStateOf items h state.old →
        IfOk result (λ ts. ts.items ≡ tags_beside tagged h (shape filter.now) head.now.0) }
    ensures same { Extends (IsMadeBeside tagged (shape filter.now) state.old.basis head.now.0)
        state.old.basis state.new.basis }
    ensures rest { state.new ≡ record state.old { basis = record state.new.basis { map = state.old.basis.map } } }
    ensures err { IfErr result
        (IsApplyFault (IsMadeBeside tagged (shape filter.now) state.old.basis head.now.0) state.new.basis.store) }
{
    if tagged {
        shown_tags(alloc, state, filter, head)
    } else {
        Ok(Vec::new(alloc))
    }
}

/// The lines of the tags that are shown beside a subject's projected history.
pub(crate) fn tags_upon(
    alloc: Global,
    subject: &Subject,
    state: &mut State,
) -> Result<Bytes, Outcome>
    requires usable { IsUsable (shape subject.now.filter) }
    requires state { IsState state.old }
    ensures made { (items : List Bytes) (h : Held) (store : KeeperView) → IsStateOf items h state.old →
        IsMadeOf (query_case h (TagsOf (shape subject.now.filter) subject.now.refname)) items h
        state.old state.new store store NoPlan result }
    ensures early { (result ≢ Err Outcome.WriteFault) × (result ≢ Err Outcome.ReadFault) ×
        (result ≢ Err Outcome.StoreFault) }
{
    let Some(head) = state.head(&subject.refname) else {
        return Err(Outcome::UnknownRef);
    };
    let tags = match shown_tags(alloc, state, &subject.filter, &head) {
        Err(error) => return Err(apply_outcome(error)),
        Ok(tags) => tags,
    };
    let report = tags_report(alloc, &tags)?;
    Ok(Bytes::of(report))
}
