// What a stream gives.
use git_objects::Name;
use path_names::RefName;
use tag_objects::Tag;

/// A commit that was made, and its tree.
#[derive(Clone, Copy, PartialEq, Eq)]
pub struct Made {
    pub name: Name,
    pub tree: Name,
}

/// A ref, and the commit that it is to name.
#[derive(Drop)]
pub struct Setting {
    pub refname: RefName,
    pub head: Name,
}

/// What a stream gives: the names of its blobs and its commits in order, and the heads that it has set, in the byte
/// order of the refs.
#[derive(Drop)]
pub struct Replayed {
    pub blobs: Vec<Name>,
    pub commits: Vec<Made>,
    pub heads: Vec<Setting>,
}

/// What a stream gives where tags are read: besides, the last tag that was read of each name, in the byte order of the
/// names.
#[derive(Drop)]
pub struct TaggedReplay {
    pub replayed: Replayed,
    pub tags: Vec<Tag>,
}
