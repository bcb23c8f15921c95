// What stands at a path, and the faults of edits.
ghost use Rattle.std.specs.Prelude.{◌≡◌, false};
ghost use Rattle.git_objects.specs.Entries.{is_dir};

use git_objects::{Mode, Name};

/// What stands at a path: a leaf with its blob's name (a module's, its commit's), or a directory with its tree's.
#[derive(Clone, Copy, Debug, PartialEq, Eq)]
pub struct Found {
    pub mode: Mode,
    pub name: Name,
}

/// A leaf of a tree: a file, an executable or a link with its blob's name, or a module with its commit's.
#[derive(Clone, Copy, Debug)]
pub struct Leaf {
    pub mode: Mode,
    pub name: Name,
    ghost is_leaf: { is_dir mode ≡ false },
}

/// Why a tree is not edited.
#[derive(Clone, Copy, Debug, PartialEq, Eq)]
pub enum TreeFault {
    /// Another kind or body has the name of a tree that the edit makes.
    Collision { name: Name },
    OutOfMemory,
}
