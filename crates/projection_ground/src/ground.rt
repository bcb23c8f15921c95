// What projections are made upon.
use crate::TrueMaps;
use commit_graph::Graph;
use commit_map::{CommitMap, Rule};
use filter_cache::Memo;
use filter_routes::Tables;
use object_store::Store;

/// What projections are made upon: commits of a store, which projections of them by one filter are kept, the tables of
/// filters with what they were seen to show, and the rule by which merges are dropped.
pub struct Ground {
    /// The objects; projections add trees and commits.
    pub store: Store,
    /// The commits, which are in the store.
    pub graph: Graph,
    /// Kept projections by one filter and the rule.
    pub map: CommitMap,
    /// The tables of filters.
    pub tables: Tables,
    /// What the tables show of trees, by their numbers.
    pub memo: Memo,
    pub rule: Rule,
    /// Projections that were made from scratch.
    pub true_maps: TrueMaps,
}

// Written out, so that to drop one is a call: a derived drop would stand in full in each function that drops one, and
// in its proof.
impl Drop for Ground {
    fn drop(self) {
        let Ground {
            store: _,
            graph: _,
            map: _,
            tables: _,
            memo: _,
            rule: _,
            true_maps: _,
        } = self;
    }
}
