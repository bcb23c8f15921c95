// Maps of projections that were made from scratch.
ghost use Rattle.std.specs.Prelude.{◌≡◌, ◌⊎◌, ◌<◌, ◌+◌, ◌++◌, ◌∷◌, ℕ, [], drop, length};
ghost use Rattle.std.specs.Prelude.{slice_get, take, IfSome, Some};
ghost use Rattle.filter_text.specs.Shapes.{shape};
ghost use Rattle.projection_ground.specs.TrueMaps.{IsMapOf, IsPutBehind, IsTakenOut};
ghost use Rattle.projection_ground.specs.declared.true_maps.TrueMap.{TrueMap as TrueMapValue};

use commit_map::{CommitMap, Rule};
use filter_text::{Filter, copy, same};
use std::alloc::{AllocError, Global};
use std::marker::Model;

// How many filters have a map at once.
const MOST: usize = 8;

/// Projections by a filter and a rule.
#[derive(Drop)]
pub struct TrueMap {
    filter: Filter,
    rule: Rule,
    map: CommitMap,
}

/// What commits were found to be projected to from scratch, by the filters that were asked last. It only saves work:
/// without memory for it, less is in it.
#[derive(Drop)]
pub struct TrueMaps {
    alloc: Global,
    // The one that was asked last stands last.
    maps: Vec<TrueMap>,
}

impl Model for TrueMaps {
    ghost use Rattle.std.specs.Coded.{codes};
    ghost use Rattle.std.specs.Prelude.{List};
    ghost use Rattle.filter_text.specs.contracts.filter.Filter as filters;
    ghost use Rattle.projection_ground.specs.declared.true_maps.TrueMap.{TrueMap as TrueMapValue};

    ghost Value = { List TrueMapValue };

    ghost coded = { Prim.hlevel (codes, filters.the_row.coded) };

    ghost view = { λ t. t.maps.items };
}

impl TrueMaps {
    /// No maps; those that come take their memory from `alloc`.
    pub fn new(alloc: Global) -> TrueMaps
        ensures { result ≡ [] }
    {
        TrueMaps {
            alloc,
            maps: Vec::new(alloc),
        }
    }

    /// Takes out the map of a filter and a rule, or gives one without entries.
    pub fn take(&mut self, filter: &Filter, rule: Rule) -> CommitMap
        ensures { IsTakenOut (shape filter.now) rule self.old self.new result }
    {
        match self.find(filter, rule) {
            None => CommitMap::new(self.alloc),
            Some(i) => self.take_at(i),
        }
    }

    // The place of the map of a filter and a rule.
    fn find(&self, filter: &Filter, rule: Rule) -> Option<usize>
        ensures { IfSome result (λ i. (m : TrueMapValue) × (slice_get self.now i ≡ Some m) ×
            (shape m.filter ≡ shape filter.now) × (m.rule ≡ rule)) }
    {
        for i in 0..self.maps.as_slice().len() {
            if self.maps[i].rule.number() == rule.number() && same(&self.maps[i].filter, filter) {
                return Some(i);
            }
        }
        None
    }

    // Takes out the map at a place.
    fn take_at(&mut self, i: usize) -> CommitMap
        requires { i < length self.old }
        ensures left { self.new ≡ take i self.old ++ drop (i + 1) self.old }
        ensures map { (m : TrueMapValue) → slice_get self.old i ≡ Some m → result ≡ m.map }
    {
        let TrueMap { map, .. } = self.maps.remove(i);
        map
    }

    /// Puts the map of a filter and a rule behind the others, of which the first goes where there are too many. Without
    /// memory for it, it is dropped.
    pub fn put(&mut self, filter: &Filter, rule: Rule, map: CommitMap)
        ensures { IsPutBehind (shape filter.now) rule map self.old self.new }
    {
        self.make_room();
        // Without memory for it the next one who asks begins anew.
        let _ = self.add(filter, rule, map);
    }

    // Leaves the first map out where there are too many.
    fn make_room(&mut self)
        ensures { (n : ℕ) × (self.new ≡ drop n self.old) }
    {
        if self.maps.as_slice().len() >= MOST {
            let _ = self.take_at(0);
        }
    }

    // Puts a map behind the others.
    fn add(&mut self, filter: &Filter, rule: Rule, map: CommitMap) -> Result<(), AllocError>
        ensures { (self.new ≡ self.old) ⊎ ((m : TrueMapValue) × IsMapOf (shape filter.now) rule map m ×
            (self.new ≡ self.old ++ m ∷ [])) }
    {
        let filter = copy(self.alloc, filter)?;
        self.maps.push(TrueMap { filter, rule, map })?;
        Ok(())
    }
}
