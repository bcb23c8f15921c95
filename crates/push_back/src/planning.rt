// What a push brings.
ghost use Rattle.std.specs.Prelude.{◌≡◌, ◌↔◌, true, length, map, IfOk, IfSome, IsErrOf, IsSome};
ghost use Rattle.git_objects.specs.Paths.{Bytes, is_bytes};
ghost use Rattle.commit_graph.specs.Graphs.{place_of};
ghost use Rattle.filter_text.specs.Shapes.{shape};
ghost use Rattle.projection_ground.specs.Grounds.{IsGround};
ghost use Rattle.proj_io.specs.Counts.{Counts};
ghost use Rattle.fast_import.specs.Waited.{TakesWithin};
ghost use Rattle.push_back.specs.Planning.{IsPlanned};
ghost use Rattle.push_back.specs.Waited.{IsTakenTo, plan_waited};
ghost use Rattle.workspace.specs.Laws.{IsUsable};

use crate::{Pair, Plan, PushBase, PushFault, originals, replay_push};
use fast_import::Made;
use filter_text::Filter;
use git_objects::Name;
use history_ground::seen_head;
use path_names::RefName;
use proj_io::Source;
use projection_ground::Ground;
use std::alloc::{AllocError, Global};

/// Replays a stream that is pushed to a ref, which is at the commit `head`, through a filter, and works out the
/// originals of its commits. The projection that it stands upon is made from scratch, and with its history put into the
/// store; so are the pushed commits and their originals. The graph and the kept projections stay.
pub fn plan<S: Source>(
    alloc: Global,
    ground: &mut Ground,
    filter: &Filter,
    refname: &RefName,
    head: &Name,
    input: &mut S,
) -> Result<Plan, PushFault>
    requires usable { IsUsable (shape filter.now) }
    requires ground { IsGround ground.old }
    requires head { IsSome (place_of head.now.0 ground.old.graph) }
    ensures planned { (all : Bytes) × (is_bytes all ≡ true) × IfSome (S.left input.old) (λ bytes. bytes ≡ all) ×
        IsPlanned (shape filter.now) refname.now head.now.0 all ground.old ground.new result }
    ensures taken { IsTakenTo (plan_waited (shape filter.now) ground.old refname.now head.now.0) (S.left input.old)
        (S.left input.new) result }
    ensures within { TakesWithin (S.left input.old) (S.left input.new) }
    ensures told { S.tells input.new ↔ S.tells input.old }
    ensures cause { Counts (S.faults input.old) (S.faults input.new) (IsErrOf result PushFault.ReadFault) }
{
    let seen = seen_head(alloc, ground, filter, head)?;
    let base = PushBase::new(
        alloc,
        &ground.store,
        refname.copy(alloc)?,
        seen.from,
        seen.tree,
    )?;
    let replayed = replay_push(alloc, input, &base, &mut ground.store)?;
    let names = originals(alloc, ground, filter, head, seen.tree, &replayed.commits)?;
    let commits = pairs(alloc, &replayed.commits, &names)?;
    Ok(Plan {
        blobs: replayed.blobs,
        commits,
    })
}

/// Each pushed commit with its original.
pub fn pairs(alloc: Global, pushed: &[Made], originals: &[Name]) -> Result<Vec<Pair>, AllocError>
    requires { length originals.now ≡ length pushed.now }
    ensures pushed { IfOk result (λ pairs. map (λ c. c.pushed) pairs.items ≡ map (λ m. m.name) pushed.now) }
    ensures originals { IfOk result (λ pairs. map (λ c. c.original) pairs.items ≡ originals.now) }
{
    let mut pairs = Vec::new(alloc);
    for (i, made) in pushed.iter().enumerate() {
        pairs.push(Pair {
            pushed: made.name,
            original: originals[i],
        })?;
    }
    Ok(pairs)
}
