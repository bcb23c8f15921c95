// Marks and the store whose objects have them.
use crate::given::GivenMarks;
use object_store::Store;

/// A store, and the marks that its blobs and commits have.
#[derive(Drop)]
pub struct MarkedStore<'a> {
    pub store: &'a Store,
    pub marks: &'a GivenMarks,
}
