// Setting the rule by which commits are projected.
ghost use Rattle.std.specs.Prelude.{◌≡◌, ◌<◌, ◌≤◌, ◌+◌, ℕ, None};
ghost use Rattle.std.specs.Prelude.{IsErrOf, MatchResult};
ghost use Rattle.commit_map.specs.Rules.{rule_number};
ghost use Rattle.git_objects.specs.declared.limits.TheConstants.{ITEMS, STORE_BYTES};
ghost use Rattle.proj_io.specs.Stops.{OnlyAdds, IsPresent};
ghost use Rattle.proj_io.specs.Uses.{IsUsed};
ghost use Rattle.proj_io.specs.Views.{keeper_view};
ghost use Rattle.state_items.specs.Changes.{RulePlan, passed, rule_plan};
ghost use Rattle.state_items.specs.Items.{Held};
ghost use Rattle.repo_ground.specs.Changes.{Appends, IsRefusal, IsRefused, IsRuleSet, IsStopOf, keep_error};
ghost use Rattle.repo_ground.specs.Contents.{Spells, SpellsSomething, room_in};

use crate::{CommitError, State};
use commit_map::Rule;
use git_objects::Quantity;
use proj_io::{KeepError, Keeper};
use state_items::{first_passed, rule_item};

impl State {
    /// The rule by which commits are projected.
    pub fn rule(&self) -> Rule
        ensures rule { result ≡ self.now.basis.rule }
        ensures held { (h : Held) → Spells h self.now → rule_number result ≡ h.rule }
    {
        self.ground.rule
    }

    /// Appends an item with the rule, where it isn't the state's. The ground's map is empty then until a filter is
    /// selected. Memory is taken by the keeper alone.
    pub fn set_rule<K: Keeper>(&mut self, keeper: &mut K, rule: Rule) -> Result<(), CommitError>
        requires open { K.is_open keeper.old × (self.old.number ≡ K.number keeper.old) }
        requires spells { SpellsSomething self.old }
        ensures state { (h : Held) → Spells h self.old → let p = rule_plan h (rule_number rule) in
            MatchResult result (λ _. IsRuleSet h p self.old self.new) (λ e. IsRefused h p self.old self.new e) }
        ensures store { self.new.basis.store ≡ self.old.basis.store }
        ensures items { let seen = keeper_view K.items K.number K.faults in (h : Held) → Spells h self.old →
            Appends (rule_plan h (rule_number rule)) (seen keeper.old) (seen keeper.new) result }
        // A stop during the call leaves the items, or these with the plan's item behind them; only the items where the
        // plan is refused.
        ensures stops { let adds = OnlyAdds (K.moment keeper.old) (K.moment keeper.new) (K.left_since keeper.old)
            (K.left_since keeper.new) in
            ((h : Held) → Spells h self.old →
            adds (IsStopOf h self.old (rule_plan h (rule_number rule)) (K.items keeper.old)))
            × (IsRefusal result → adds (IsPresent (K.items keeper.old))) }
        ensures used { IsUsed K.faults K.is_open K.tells keeper.old keeper.new
            (IsErrOf result CommitError.StoreFault) }
    {
        if self.ground.rule.number() == rule.number() {
            return Ok(());
        }
        if let Some(which) = self.rule_limit() {
            return Err(CommitError::Limit { which });
        }
        match keeper.append(&rule_item(rule)) {
            Err(error) => Err(keep_error(error)),
            Ok(()) => {
                self.put_away();
                self.ground.rule = rule;
                self.number += 1;
                self.size += 3;
                Ok(())
            }
        }
    }

    // The first limit that an item with a rule passes.
    fn rule_limit(&self) -> Option<Quantity>
        requires spells { SpellsSomething self.now }
        ensures limit { (h : Held) (k : ℕ) → Spells h self.now →
            result ≡ passed h (room_in self.now) (RulePlan k) }
        ensures room { result ≡ None → (self.now.number < ITEMS) × (self.now.size + 3 ≤ STORE_BYTES) }
    {
        let commits = self.ground.graph.len() as usize;
        first_passed(commits, self.held.len(), Some(3), self.number, self.size)
    }
}

/// Why an item wasn't appended.
pub(crate) fn keep_error(error: KeepError) -> CommitError
    ensures { result ≡ keep_error error }
{
    match error {
        KeepError::Failed => CommitError::StoreFault,
        KeepError::OutOfMemory => CommitError::OutOfMemory,
    }
}
