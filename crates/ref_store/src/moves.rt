// Moves of refs.
ghost use Rattle.std.specs.Prelude.{◌≡◌, ◌↔◌, ℕ, Some, IsSome, IsTrue, IfOk};
ghost use Rattle.commit_graph.specs.Graphs.{place_of, Reaches};

use commit_graph::Graph;
use git_objects::Name;
use std::alloc::{AllocError, Global};

/// Whether the old commit is the new one or an ancestor of it. The marks of ancestors take memory, which the graph's
/// own allocator gives; the argument is that of every free function that takes memory.
pub fn forward(_alloc: Global, graph: &Graph, old: &Name, new: &Name) -> Result<bool, AllocError>
    requires old_is_there { IsSome (place_of old.now.0 graph.now) }
    requires new_is_there { IsSome (place_of new.now.0 graph.now) }
    ensures { IfOk result (λ b. (i j : ℕ) → place_of old.now.0 graph.now ≡ Some i →
        place_of new.now.0 graph.now ≡ Some j → IsTrue b ↔ Reaches graph.now j i) }
{
    let old = graph.index_of(old).unwrap();
    let new = graph.index_of(new).unwrap();
    graph.is_ancestor(old, new)
}
