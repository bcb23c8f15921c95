// Writing a certificate.
ghost use Rattle.std.specs.Prelude.{◌≡◌, ◌≤◌, ◌++◌, ◌↔◌, ℕ, true, take, IfOk, IsErrOf, OnErr};
ghost use Rattle.std.specs.Prelude.{OnOk};
ghost use Rattle.std.specs.Io.KnownBytes.{Appends};
ghost use Rattle.git_objects.specs.Names.{kind_word};
ghost use Rattle.object_store.specs.Errors.{object_value};
ghost use Rattle.object_store.specs.Objects.{has};
ghost use Rattle.filter_text.specs.Shapes.{shape};
ghost use Rattle.workspace.specs.Laws.{IsUsable};
ghost use Rattle.proj_io.specs.Counts.{Counts};
ghost use Rattle.proj_audit.specs.Certificates.{audit};
ghost use Rattle.proj_audit.specs.Steps.{needed_values};
ghost use Rattle.proj_audit.specs.Texts.{certificate, object_text};

use crate::objects::{Needed, Stop};
use crate::showing::commit_leaf;
use filter_text::Filter;
use git_objects::{Kind, Name};
use itoa::Buffer;
use object_store::{ObjectRef, Store, store_law};
use path_names::Path;
use proj_io::{Sink, SinkError, write_whole};
use std::alloc::{AllocError, Global};

/// Why a certificate wasn't written whole.
#[derive(Clone, Copy, Debug, PartialEq, Eq)]
pub enum AuditError {
    /// The sink failed.
    Fault,
    /// There is no memory, or the sink has none.
    OutOfMemory,
}

fn kind_word(kind: Kind) -> &'static [u8]
    ensures { result.now ≡ kind_word kind }
{
    match kind {
        Kind::Blob => b"blob",
        Kind::Tree => b"tree",
        Kind::Commit => b"commit",
    }
}

// Adds an object with its first line.
fn add_object(text: &mut Vec<u8>, object: ObjectRef<'_>) -> Result<(), AllocError>
    ensures { OnOk result (text.new.items ≡ text.old.items ++ object_text (object_value object.entry)) }
{
    let mut size = Buffer::new();
    text.extend_from_slice(kind_word(object.kind))?;
    text.push(b' ')?;
    text.extend_from_slice(size.format(object.body.len() as u64).as_bytes())?;
    text.push(b'\n')?;
    text.extend_from_slice(object.body)?;
    text.push(b'\n')?;
    Ok(())
}

// The certificate of these objects.
fn certificate(alloc: Global, objects: &[Needed<'_>]) -> Result<Vec<u8>, AllocError>
    ensures { IfOk result (λ text. text.items ≡ certificate (needed_values objects.now)) }
{
    let mut text = b"audit 1\n".to_vec(alloc)?;
    for needed in objects {
        add_object(&mut text, needed.object)?;
    }
    Ok(text)
}

/// The bytes of the certificate of what the filter shows of a commit of the store at a path. The commit is read, the
/// trees on the way to two paths, and at most one blob, whatever else the store holds. The error is want of memory.
pub fn audit_text(
    alloc: Global,
    store: &Store,
    filter: &Filter,
    commit: &Name,
    path: &Path,
) -> Result<Vec<u8>, AllocError>
    requires usable { IsUsable (shape filter.now) }
    requires commit { has Kind.Commit store.now commit.now.0 ≡ true }
    ensures { IfOk result (λ text. text.items ≡ audit store.now (shape filter.now) path.now commit.now.0) }
{
    store_law(store);
    let mut used = Vec::new(alloc);
    match commit_leaf(alloc, store, filter, path, commit, &mut used) {
        Ok(_) => certificate(alloc, &used),
        Err(Stop::OutOfMemory) => Err(AllocError),
        Err(Stop::NotThere(_)) => unreachable!(),
    }
}

/// Writes the certificate of what the filter shows of a commit of the store at a path. It is made whole before its
/// first byte is written; at an error a front of it was written.
pub fn write_audit<O: Sink>(
    alloc: Global,
    store: &Store,
    filter: &Filter,
    commit: &Name,
    path: &Path,
    sink: &mut O,
) -> Result<(), AuditError>
    requires usable { IsUsable (shape filter.now) }
    requires commit { has Kind.Commit store.now commit.now.0 ≡ true }
    ensures ok { OnOk result
        (Appends (O.written sink.old) (O.written sink.new) (audit store.now (shape filter.now) path.now commit.now.0)) }
    ensures err { OnErr result ((n : ℕ) × Appends (O.written sink.old) (O.written sink.new)
        (take n (audit store.now (shape filter.now) path.now commit.now.0))) }
    ensures told { O.tells sink.new ↔ O.tells sink.old }
    ensures cause { Counts (O.faults sink.old) (O.faults sink.new) (IsErrOf result AuditError.Fault) }
    ensures memory { O.refusals sink.old ≤ O.refusals sink.new }
{
    let Ok(text) = audit_text(alloc, store, filter, commit, path) else {
        return Err(AuditError::OutOfMemory);
    };
    match write_whole(sink, &text) {
        Ok(()) => Ok(()),
        Err(SinkError::Failed) => Err(AuditError::Fault),
        Err(SinkError::OutOfMemory) => Err(AuditError::OutOfMemory),
    }
}
