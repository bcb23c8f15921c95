// Filters, as the code has them, and the faults of their texts.
use path_names::Path;
use thiserror::Error;

/// A filter of a monorepo's paths, in Josh's manner.
///
/// A chain has at least two members, none of them a chain. A workspace stands at most once, as the whole filter or as a
/// member of its outermost chain.
#[derive(Debug, Drop)]
pub enum Filter {
    /// `:nop`
    Nop,
    /// `:/a`
    Sub(Path),
    /// `:prefix=a`
    Prefix(Path),
    /// `::a/`
    Dir(Path),
    /// `::a`
    File(Path),
    /// `:exclude[f]`
    Exclude(Box<Filter>),
    /// `:[f,g]`
    Join(Vec<Filter>),
    /// `:f:g`
    Chain(Vec<Filter>),
    /// `:workspace=a`
    Workspace(Path),
}

/// Why a text is not read as a filter.
#[derive(Clone, Copy, Debug, PartialEq, Eq, Error)]
pub enum FilterFault {
    /// More bytes than `limits::FILTER_BYTES`.
    #[error("filter too long")]
    TooLong,
    /// At some place the bytes `[` before it are more than `limits::FILTER_NESTING` more than the bytes `]`, wherever
    /// they stand.
    #[error("filter nested too deep")]
    TooDeep,
    #[error("no filter")]
    Syntax,
    /// A workspace inside brackets, or two of them.
    #[error("misplaced workspace")]
    WorkspacePlace,
    /// More pieces than `limits::FILTER_PIECES`, or more components over all paths than `limits::FILTER_COMPONENTS`.
    #[error("filter too large")]
    TooMany,
    #[error("out of memory")]
    OutOfMemory,
}

/// A line of a workspace file.
#[derive(Debug, Drop)]
pub struct Item {
    /// Where the item's paths stand in the workspace.
    pub place: Path,
    pub filter: Filter,
}

/// Why a workspace file gives no items.
#[derive(Clone, Copy, Debug, PartialEq, Eq)]
pub enum ItemsFault {
    /// The text is no list of items, or passes a limit.
    Unreadable,
    OutOfMemory,
}
