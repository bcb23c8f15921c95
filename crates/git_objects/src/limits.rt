//! How large things may be. A tree, a path or an item that is larger is refused; the answer names the `Quantity`.

/// Bytes of a stream, up to its end or its `done` line.
pub const STREAM_BYTES: u64 = 268_435_456;

/// Bytes of a line of a stream, without its LF.
pub const LINE_BYTES: usize = 65_536;

/// Bytes of a blob.
pub const BLOB_BYTES: usize = 16_777_216;

/// Bytes of a commit's message.
pub const MESSAGE_BYTES: usize = 1_048_576;

/// Bytes of a component of a path that is read.
pub const COMPONENT_BYTES: usize = 255;

/// Components of a path that is read.
pub const PATH_COMPONENTS: usize = 128;

/// Bytes of the text of a path that is read.
pub const PATH_BYTES: usize = 4_096;

/// Parents of a commit.
pub const PARENTS: usize = 16;

/// Bytes of a ref name.
pub const REF_BYTES: usize = 1_024;

/// Files of a tree.
pub const TREE_FILES: u32 = 1_048_576;

/// Components of the deepest path of a tree that is kept.
pub const TREE_DEPTH: u32 = 1_024;

/// Bytes of the longest path of a tree that is kept.
pub const TREE_PATH_BYTES: u32 = 16_384;

/// Commits of a state.
pub const COMMITS: u32 = 1_048_576;

/// Objects of a state.
pub const OBJECTS: u32 = 4_194_304;

/// Bytes of an item.
pub const ITEM_BYTES: usize = 536_870_912;

/// Items of a store.
pub const ITEMS: u32 = 1_048_576;

/// Bytes of all items of a store together.
pub const STORE_BYTES: u64 = 2_147_483_648;

/// Bytes of a batch's input.
pub const INPUT_BYTES: usize = 536_870_912;

/// Bytes of a filter's text.
pub const FILTER_BYTES: usize = 4_096;

/// Pieces of a filter.
pub const FILTER_PIECES: usize = 1_024;

/// Components of all paths of a filter together.
pub const FILTER_COMPONENTS: usize = 256;

/// Brackets of a filter's text that are open at one place.
pub const FILTER_NESTING: usize = 16;

/// Bytes of a policy.
pub const POLICY_BYTES: usize = 65_536;

/// Bytes of a user's name.
pub const USER_BYTES: usize = 64;

/// Bytes of a workspace file.
pub const WORKSPACE_BYTES: usize = 65_536;
