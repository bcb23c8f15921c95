// Changes of a commit's tree.
ghost use Rattle.std.specs.Prelude.{◌≤◌, IfOk};
ghost use Rattle.git_objects.specs.declared.limits.TheConstants.{STREAM_BYTES};
ghost use Rattle.stream_lex.specs.Views.{input};
ghost use Rattle.stream_reader.specs.Changes.{blob_ref, modify, change};
ghost use Rattle.stream_reader.specs.Views.{Tells, with_rest, change_kind};

use crate::blocks::blob_data;
use crate::halt::Halt;
use crate::kinds::ChangeKind;
use crate::modify::{DataRef, modify_line};
use crate::path_words::{last_path, two_paths};
use crate::{BlobRef, Change, Feature, StreamFault};
use git_objects::Bytes;
use std::alloc::Global;
use stream_lex::Cursor;

// The data behind the line, where it says so.
fn blob_ref<'a>(
    alloc: Global,
    blob: DataRef,
    ended: bool,
    i: Cursor<'a>,
) -> Result<(BlobRef, Cursor<'a>), Halt>
    requires { i.at ≤ STREAM_BYTES }
    ensures told { Tells with_rest result (blob_ref blob ended (input i.entry)) }
    ensures within { IfOk result (λ x. x.1.at ≤ STREAM_BYTES) }
{
    match blob {
        DataRef::Mark(n) => Ok((BlobRef::Mark(n), i)),
        DataRef::Digits(name) => Ok((BlobRef::Digits(name), i)),
        DataRef::Inline => {
            let (bytes, after) = blob_data(ended, i)?;
            let bytes = bytes.to_vec(alloc)?;
            Ok((BlobRef::Inline(Bytes::of(bytes)), after))
        }
    }
}

#[tactic(auto, unfolding(crate::specs::Changes::modify))]
fn modify<'a>(
    alloc: Global,
    at: u64,
    text: &[u8],
    ended: bool,
    i: Cursor<'a>,
) -> Result<(Change, Cursor<'a>), Halt>
    requires { i.at ≤ STREAM_BYTES }
    ensures told { Tells with_rest result (modify at text.now ended (input i.entry)) }
    ensures within { IfOk result (λ x. x.1.at ≤ STREAM_BYTES) }
{
    let line = modify_line(alloc, at, text)?;
    let (blob, after) = blob_ref(alloc, line.blob, ended, i)?;
    Ok((
        Change::Modify {
            mode: line.mode,
            blob,
            path: line.path,
        },
        after,
    ))
}

// A change whose first line stands at a place, behind this line.
#[tactic(auto, unfolding(crate::specs::Changes::change))]
pub fn change<'a>(
    alloc: Global,
    at: u64,
    kind: ChangeKind<'a>,
    ended: bool,
    i: Cursor<'a>,
) -> Result<(Change, Cursor<'a>), Halt>
    requires { i.at ≤ STREAM_BYTES }
    ensures told { Tells with_rest result (change at (change_kind kind.entry) ended (input i.entry)) }
    ensures within { IfOk result (λ x. x.1.at ≤ STREAM_BYTES) }
{
    match kind {
        ChangeKind::Modify(text) => modify(alloc, at, text, ended, i),
        ChangeKind::Delete(text) => {
            let path = last_path(alloc, at, text)?;
            Ok((Change::Delete { path }, i))
        }
        ChangeKind::Rename(text) => {
            let (from, to) = two_paths(alloc, at, text)?;
            Ok((Change::Rename { from, to }, i))
        }
        ChangeKind::Copy(text) => {
            let (from, to) = two_paths(alloc, at, text)?;
            Ok((Change::Copy { from, to }, i))
        }
        ChangeKind::DeleteAll => Ok((Change::DeleteAll, i)),
        ChangeKind::Notes => Err(Halt::Fault(StreamFault::Unsupported {
            at,
            what: Feature::Notes,
        })),
        ChangeKind::Empty | ChangeKind::Other => Err(Halt::Fault(StreamFault::Syntax { at })),
    }
}
