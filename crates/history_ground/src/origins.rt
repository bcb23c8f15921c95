// Which commit is the first with a projection.
ghost use Rattle.std.specs.Prelude.{◌≡◌, IfErr, IfOk, OnOk};
ghost use Rattle.std.specs.Option.{option_map};
ghost use Rattle.git_objects.specs.Parts.{name_bytes};
ghost use Rattle.filter_apply.specs.Faults.{IsApplyFault};
ghost use Rattle.filter_text.specs.Shapes.{shape};
ghost use Rattle.workspace.specs.Laws.{IsUsable};
ghost use Rattle.projection_ground.specs.Grounds.{Extends, IsGround, commits_of};
ghost use Rattle.projection_ground.specs.TrueMaps.{IsTrueMap};
ghost use Rattle.history_ground.specs.Origins.{AreFirsts, IsProjected, IsProjectionObject, first_of, first_value};
ghost use Rattle.history_ground.specs.Origins.{with_first};

use crate::making::made_to;
use filter_apply::ApplyError;
use filter_text::Filter;
use git_objects::Name;
use indexmap::IndexMap;
use projection_ground::{Asked, Ground};
use std::alloc::{AllocError, Global};
use std::marker::Model;
use std::mem;

/// The place in the graph of the first commit with a projection, and the projection's tree.
#[derive(Clone, Copy)]
pub struct First {
    pub place: u32,
    pub tree: Name,
}

/// The projections of a graph's commits, each with the first commit that has it.
#[derive(Drop)]
pub struct Origins {
    firsts: IndexMap<Name, First>,
}

impl Model for Origins {
    ghost use Rattle.history_ground.specs.Origins.{Firsts, first_values};

    ghost Value = { Firsts };

    ghost view = { λ o. first_values o.firsts.entries };
}

impl Origins {
    /// The projections by a filter of all commits of the ground's graph, from scratch. They and their trees are put
    /// into the store; the kept projections are neither asked nor changed. Of the ground's true maps it asks what is
    /// there, and adds what is new.
    pub fn of(alloc: Global, ground: &mut Ground, filter: &Filter) -> Result<Origins, ApplyError>
        requires usable { IsUsable (shape filter.now) }
        requires ground { IsGround ground.old }
        ensures ok { IfOk result (AreFirsts (shape filter.now) ground.old ground.new.store) }
        ensures map { ground.new.map ≡ ground.old.map }
        ensures same { Extends (IsProjectionObject (shape filter.now) ground.old) ground.old ground.new }
        ensures err { IfErr result (IsApplyFault (IsProjectionObject (shape filter.now) ground.old) ground.new.store) }
    {
        let rule = ground.rule;
        let known = ground.true_maps.take(filter, rule);
        let kept = mem::replace(&mut ground.map, known);
        let result = firsts_upon(alloc, ground, filter);
        let known = mem::replace(&mut ground.map, kept);
        ground.true_maps.put(filter, rule, known);
        result
    }

    /// The place of the first commit with this projection, or that there is none. It takes no memory.
    pub fn first(&self, projected: &Name) -> Option<u32>
        ensures { result ≡ option_map (λ x. x.place) (first_of projected.now.0 self.now) }
    {
        match self.get(projected) {
            None => None,
            Some(first) => Some(first.place),
        }
    }

    /// The tree of this projection, where it is one. It takes no memory.
    pub fn tree(&self, projected: &Name) -> Option<Name>
        ensures { option_map name_bytes result ≡ option_map (λ x. x.tree) (first_of projected.now.0 self.now) }
    {
        match self.get(projected) {
            None => None,
            Some(first) => Some(first.tree),
        }
    }

    // What is known of this projection, where it is one.
    fn get(&self, projected: &Name) -> Option<First>
        ensures { option_map first_value result ≡ first_of projected.now.0 self.now }
    {
        self.firsts.get(projected).copied()
    }

    // Adds a projection behind the others, unless it is there.
    fn add(&mut self, projected: Name, first: First) -> Result<(), AllocError>
        ensures { OnOk result (self.new ≡ with_first self.old projected.0 (first_value first)) }
    {
        if self.get(&projected).is_some() {
            return Ok(());
        }
        self.firsts.insert(projected, first)?;
        Ok(())
    }
}

// The projections of all commits of the graph, over a ground whose map has projections from scratch. It gets more of
// them.
fn firsts_upon(alloc: Global, ground: &mut Ground, filter: &Filter) -> Result<Origins, ApplyError>
    requires usable { IsUsable (shape filter.now) }
    requires ground { IsGround ground.old }
    requires map { IsTrueMap ground.old.store (commits_of ground.old) ground.old.rule (shape filter.now)
        ground.old.map }
    ensures ok { IfOk result (AreFirsts (shape filter.now) ground.old ground.new.store) }
    ensures projected { IsProjected (shape filter.now) ground.old ground.new }
    ensures err { IfErr result (IsApplyFault (IsProjectionObject (shape filter.now) ground.old) ground.new.store) }
{
    let mut origins = Origins {
        firsts: IndexMap::new(alloc),
    };
    if ground.graph.is_empty() {
        return Ok(origins);
    }
    let root = ground.graph.tree(0);
    let mut asked = Asked::new(alloc, ground, filter, root)?;
    for place in 0..ground.graph.len() {
        let name = ground.graph.name(place);
        if let Some(shown) = made_to(alloc, ground, filter, &mut asked, &name)? {
            let first = First {
                place,
                tree: shown.tree,
            };
            origins.add(shown.commit, first)?;
        }
    }
    Ok(origins)
}
