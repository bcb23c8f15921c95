// What has a limit.

/// A quantity that has a limit.
#[derive(Clone, Copy, Debug, PartialEq, Eq)]
pub enum Quantity {
    /// Bytes of a stream.
    Stream,
    /// Bytes of a line.
    Line,
    /// Bytes of a blob.
    Blob,
    /// Bytes of a message.
    Message,
    /// Bytes of a component.
    Component,
    /// Components of a path.
    PathDepth,
    /// Bytes of a path's text.
    PathBytes,
    /// Parents of a commit.
    Parents,
    /// Files of a tree.
    Files,
    /// Commits of the state.
    Commits,
    /// Objects of the state.
    Objects,
    /// Bytes of an item.
    Item,
    /// Items of the store.
    Items,
    /// Bytes of all items.
    Store,
    /// Bytes of a batch.
    Input,
}
