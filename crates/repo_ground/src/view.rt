// What a stream may name of a state.
ghost use Rattle.std.specs.Prelude.{◌≡◌, reverse, map, []};
ghost use Rattle.git_objects.specs.Parts.{name_bytes};
ghost use Rattle.state_items.specs.Changes.{with_refs};
ghost use Rattle.repo_ground.specs.Laws.{trees_of};

use commit_graph::Graph;
use fast_import::Base;
use git_objects::Name;
use indexmap::IndexSet;
use path_names::RefName;
use ref_store::Refs;
use std::marker::Model;

/// The commits with their trees, the refs and the known blobs of a state, beside its store.
#[derive(Drop)]
pub struct StateView<'a> {
    graph: &'a Graph,
    refs: &'a Refs,
    blobs: &'a IndexSet<Name>,
}

impl<'a> Model for StateView<'a> {
    ghost use Rattle.std.specs.Prelude.{reverse, map, []};
    ghost use Rattle.git_objects.specs.Parts.{name_bytes};
    ghost use Rattle.state_items.specs.Changes.{with_refs};
    ghost use Rattle.repo_ground.specs.Laws.{Named, trees_of};

    ghost Value = { Named };

    ghost view = { λ v. record {
      commits = trees_of v.graph.now;
      refs = with_refs [] v.refs.now;
      blobs = reverse (map name_bytes v.blobs.now.keys);
    } };
}

impl<'a> StateView<'a> {
    /// Takes no memory.
    pub fn of(graph: &'a Graph, refs: &'a Refs, blobs: &'a IndexSet<Name>) -> StateView<'a>
        ensures commits { result.commits ≡ trees_of graph.now }
        ensures refs { result.refs ≡ with_refs [] refs.now }
        ensures blobs { result.blobs ≡ reverse (map name_bytes blobs.now.keys) }
    {
        StateView { graph, refs, blobs }
    }
}

impl<'a> Base for StateView<'a> {
    ghost commits = { λ v. v.commits };

    ghost refs = { λ v. v.refs };

    ghost blobs = { λ v. v.blobs };

    fn tree_of(&self, commit: &Name) -> Option<Name> {
        if self.graph.len() == 0 {
            return None;
        }
        match self.graph.index_of(commit) {
            None => None,
            Some(place) => Some(self.graph.tree(place)),
        }
    }

    fn branch(&self, refname: &RefName) -> Option<Name> {
        if self.refs.len() == 0 {
            return None;
        }
        self.refs.get(refname)
    }

    fn knows_blob(&self, blob: &Name) -> bool {
        self.blobs.contains(blob)
    }
}
