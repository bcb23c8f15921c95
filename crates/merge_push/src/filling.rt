// Projections of all commits of a graph, kept.
ghost use Rattle.std.specs.Prelude.{◌≡◌, ◌<◌, IfErr, IsSome, OnOk};
ghost use Rattle.commit_graph.specs.Graphs.{place_of};
ghost use Rattle.commit_map.specs.Shown.{kept_at};
ghost use Rattle.filter_apply.specs.Faults.{IsApplyFault};
ghost use Rattle.filter_text.specs.Shapes.{shape};
ghost use Rattle.projection_ground.specs.Choosing.{KeepsAll};
ghost use Rattle.projection_ground.specs.Grounds.{Extends, IsGround, IsShownOf, commits_of};
ghost use Rattle.projection_laws.specs.Filled.{IsFilled};
ghost use Rattle.merge_push.specs.Progressing.{HasTrueMap, IsFilledUp};
ghost use Rattle.workspace.specs.Laws.{IsUsable};
ghost use Rattle.workspace.specs.Workspaces.{shown};

use filter_apply::ApplyError;
use filter_text::Filter;
use git_objects::{Name, Steps};
use history_ground::project_to;
use projection_ground::Ground;
use projection_laws::projection_law;
use std::alloc::Global;
use std::marker::Brand;
use std::sync::ledger::{Blank, Ledger};

// Projects a commit and keeps what it is projected to, unless something is kept of it. Nobody asks for the steps.
fn keep_projection<L: Ledger>(
    alloc: Global,
    ground: &mut Ground,
    filter: &Filter,
    name: &Name,
    blank: Blank,
) -> Result<(), ApplyError>
    requires blank { (blank.name ≡ L.name) × (blank.parts ≡ L.parts) × (0 < blank.parts) }
    requires usable { IsUsable (shape filter.now) }
    requires ground { IsGround ground.old }
    requires head { IsSome (place_of name.now.0 ground.old.graph) }
    ensures map { IsFilled ground.old.rule (shown (shape filter.now)) (commits_of ground.old) name.now.0
        ground.old.map ground.new.map }
    ensures kept { OnOk result (IsSome (kept_at name.now.0 ground.new.map)) }
    ensures same { Extends (IsShownOf (shape filter.now) (commits_of ground.old)) ground.old ground.new }
    ensures err { IfErr result
        (IsApplyFault (IsShownOf (shape filter.now) (commits_of ground.old)) ground.new.store) }
{
    let mut steps = Steps::<L>::new(blank);
    match project_to(alloc, ground, filter, name, &mut steps) {
        Ok(_) => Ok(()),
        Err(error) => Err(error),
    }
}

// Projects each commit of the graph of which nothing is kept, over a ground whose map has projections from scratch.
pub(crate) fn fill(alloc: Global, ground: &mut Ground, filter: &Filter) -> Result<(), ApplyError>
    requires usable { IsUsable (shape filter.now) }
    requires ground { IsGround ground.old }
    requires map { HasTrueMap (shape filter.now) ground.old }
    ensures filled { IsFilledUp (shape filter.now) ground.old ground.new }
    ensures ok { OnOk result (KeepsAll ground.new) }
    ensures err { IfErr result
        (IsApplyFault (IsShownOf (shape filter.now) (commits_of ground.old)) ground.new.store) }
{
    projection_law();
    for place in 0..ground.graph.len() {
        let name = ground.graph.name(place);
        match keep_projection::<Brand>(alloc, ground, filter, &name, Blank::new(1)) {
            Ok(()) => {}
            Err(error) => return Err(error),
        }
    }
    Ok(())
}
