// Objects that a stream brings, put into a store.
ghost use Rattle.std.specs.Prelude.{◌≡◌, ◌≤◌, ◌⊎◌, true, map, length, IfErr, IfOk, Some};
ghost use Rattle.git_objects.specs.Commits.{commit_body};
ghost use Rattle.git_objects.specs.Lists.{Each};
ghost use Rattle.git_objects.specs.Names.{name};
ghost use Rattle.git_objects.specs.Parts.{commit_of, name_bytes};
ghost use Rattle.git_objects.specs.declared.kind.Kind.TheVariants.{Commit, Tree};
ghost use Rattle.git_objects.specs.declared.name.Name.{Name};
ghost use Rattle.object_store.specs.Growth.{IsGrownBy, IsOnly};
ghost use Rattle.object_store.specs.Objects.{find_named, has};
ghost use Rattle.fast_import.specs.Made.{IsPutFault};
ghost use Rattle.stream_reader.specs.declared.fault.StreamFault.TheVariants.{Collision, OutOfMemory};

use crate::StreamFault;
use git_objects::{CommitParts, Kind, Name, encode_commit};
use object_store::{PutError, Store, store_law};
use std::alloc::Global;

// The fault of a stream that brings an object which fits but isn't taken in.
pub(crate) fn put_fault(error: PutError) -> StreamFault
    requires { (error ≡ PutError.OutOfMemory) ⊎ ((n : Name) × (error ≡ PutError.Collision n)) }
    ensures memory { error ≡ PutError.OutOfMemory → result ≡ OutOfMemory }
    ensures collision { (n : Name) → error ≡ PutError.Collision n → result ≡ Collision n }
{
    match error {
        PutError::Collision { name } => StreamFault::Collision { name },
        PutError::OutOfMemory => StreamFault::OutOfMemory,
        PutError::NotCanonical => unreachable!(),
        PutError::MissingChild { name: _ } => unreachable!(),
    }
}

// Takes in a commit whose tree and parents are there.
pub(crate) fn put_commit(
    alloc: Global,
    store: &mut Store,
    parts: &CommitParts,
) -> Result<Name, StreamFault>
    requires tree { has Tree store.old parts.now.tree.0 ≡ true }
    requires parents { Each (λ n. has Commit store.old n ≡ true) (map name_bytes parts.now.parents.items) }
    requires few { length parts.now.parents.items ≤ 16 }
    ensures ok { IfOk result (λ n. (n.0 ≡ name Commit (commit_body (commit_of parts.now)))
        × (find_named store.new n.0
        ≡ Some (record { kind = Commit; body = commit_body (commit_of parts.now) }))) }
    ensures err { IfErr result (IsPutFault (IsOnly Commit (commit_body (commit_of parts.now))) store.new) }
    ensures store { IsGrownBy (IsOnly Commit (commit_body (commit_of parts.now))) store.old store.new }
{
    store_law(store);
    let body = match encode_commit(alloc, parts) {
        Ok(body) => body,
        Err(_) => return Err(StreamFault::OutOfMemory),
    };
    match store.put_fitting(Kind::Commit, &body) {
        Ok(name) => Ok(name),
        Err(error) => Err(put_fault(error)),
    }
}
