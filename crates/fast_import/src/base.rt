// What is there before a stream.
ghost use Rattle.std.specs.Prelude.{◌≡◌, List, []};
ghost use Rattle.std.specs.List.{list_any};
ghost use Rattle.std.specs.Option.{option_map};
ghost use Rattle.std.specs.FinMap.{find};
ghost use Rattle.git_objects.specs.Parts.{name_bytes};
ghost use Rattle.git_objects.specs.Paths.{Bytes, same_bytes};
ghost use Rattle.git_objects.specs.Refs.{Refs, bytes_cmp};
ghost use Rattle.fast_import.specs.Replays.{value_at};

use git_objects::Name;
use path_names::RefName;

/// What is there before a stream. No call takes memory.
pub trait Base {
    /// The names of the commits, each with the name of its tree.
    ghost commits: { Self → List (Bytes × Bytes) };

    /// The refs, with the names of their commits.
    ghost refs: { Self → Refs };

    /// The names of the known blobs.
    ghost blobs: { Self → List Bytes };

    /// The tree of the commit of that name.
    fn tree_of(&self, commit: &Name) -> Option<Name>
        ensures { option_map name_bytes result ≡ value_at commit.now.0 (commits self.now) };

    /// The commit that a ref names.
    fn branch(&self, refname: &RefName) -> Option<Name>
        ensures { option_map name_bytes result ≡ find bytes_cmp refname.now (refs self.now) };

    /// Whether a blob of that name is known.
    fn knows_blob(&self, blob: &Name) -> bool
        ensures { result ≡ list_any (same_bytes blob.now.0) (blobs self.now) };
}

/// Nothing is there before the stream.
#[derive(Clone, Copy)]
pub struct EmptyBase;

impl Base for EmptyBase {
    ghost commits = { λ _. [] };

    ghost refs = { λ _. [] };

    ghost blobs = { λ _. [] };

    fn tree_of(&self, _commit: &Name) -> Option<Name> {
        None
    }

    fn branch(&self, _refname: &RefName) -> Option<Name> {
        None
    }

    fn knows_blob(&self, _blob: &Name) -> bool {
        false
    }
}
