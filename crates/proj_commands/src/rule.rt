// Setting the rule of projection.
ghost use Rattle.std.specs.Prelude.{◌≡◌, ◌≢◌, List, Err, Ok};
ghost use Rattle.git_objects.specs.Paths.{Bytes};
ghost use Rattle.commit_map.specs.Rules.{rule_number};
ghost use Rattle.proj_io.specs.Stops.{OnlyAdds};
ghost use Rattle.proj_io.specs.Uses.{IsUsed};
ghost use Rattle.proj_io.specs.Views.{keeper_view};
ghost use Rattle.repo_ground.specs.Changes.{IsStopOf};
ghost use Rattle.state_items.specs.Changes.{Plan};
ghost use Rattle.state_items.specs.Items.{Held};
ghost use Rattle.proj_commands.specs.Cases.{RuleCase};
ghost use Rattle.proj_commands.specs.Makes.{IsMadeOf, IsState, IsStateOf};

use crate::lines::rule_report;
use crate::refusals::commit_outcome;
use commit_map::Rule;
use git_objects::Bytes;
use proj_io::Keeper;
use proj_words::Outcome;
use repo_ground::State;
use std::alloc::Global;

/// Sets the rule by which commits are projected, and gives its line.
pub fn set_rule<K: Keeper>(
    alloc: Global,
    state: &mut State,
    store: &mut K,
    rule: Rule,
) -> Result<Bytes, Outcome>
    requires open { K.is_open store.old × (state.old.number ≡ K.number store.old) }
    requires state { IsState state.old }
    ensures made { let seen = keeper_view K.items K.number K.faults in
        (items : List Bytes) (h : Held) → IsStateOf items h state.old → (p : Plan) ×
        IsMadeOf (Ok (RuleCase h (rule_number rule))) items h
        state.old state.new (seen store.old) (seen store.new) p result ×
        OnlyAdds (K.moment store.old) (K.moment store.new) (K.left_since store.old) (K.left_since store.new)
        (IsStopOf h state.old p (K.items store.old)) }
    ensures early { (result ≢ Err Outcome.WriteFault) × (result ≢ Err Outcome.ReadFault) }
    ensures used { IsUsed K.faults K.is_open K.tells store.old store.new (result ≡ Err Outcome.StoreFault) }
{
    let line = rule_report(alloc, rule)?;
    match state.set_rule(store, rule) {
        Err(error) => Err(commit_outcome(error)),
        Ok(()) => Ok(Bytes::of(line)),
    }
}
