// Objects that lines put into a store.
use crate::Fault;
use git_objects::{Kind, Name};
use object_store::Store;

/// Puts an object that lines spell, and hands out its name. One that the store doesn't take is no case.
pub fn put_object(store: &mut Store, kind: Kind, body: &[u8]) -> Result<Name, Fault> {
    store.put_slice(kind, body).ok().ok_or(Fault::BadLine)
}
