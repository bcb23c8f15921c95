// The memo of what is shown of trees: it has what was shown last, and the parts of which that was made.
ghost use Rattle.std.specs.Prelude.{◌≡◌, ◌<◌};
ghost use Rattle.filter_apply.specs.Truth.{IsTrueFor};

use filter_apply::shown;
use filter_cache::Memo;
use filter_routes::Table;
use filter_text::parse;
use git_objects::{Kind, Name, Steps};
use object_store::Store;
use std::alloc::Global;
use std::marker::Brand;
use std::sync::ledger::{Blank, Ledger};
use std::test::Fail;

// The files a/f and b/f, the directory of each, a root that has a alone, and one that has both, as Git writes them.
const OBJECTS: [(Kind, &[u8]); 4] = [
    (Kind::Blob, b"hello\n"),
    (
        Kind::Tree,
        b"100644 f\0\xce\x01\x36\x25\x03\x0b\xa8\xdb\xa9\x06\xf7\x56\x96\x7f\x9e\x9c\xa3\x94\x46\x4a",
    ),
    (
        Kind::Tree,
        b"40000 a\0\x10\x73\x1d\x0b\x17\x0b\x98\x48\x1a\x00\xbd\xca\x16\x1e\x87\x4e\x0a\xb9\x33\x77",
    ),
    (
        Kind::Tree,
        b"40000 a\0\x10\x73\x1d\x0b\x17\x0b\x98\x48\x1a\x00\xbd\xca\x16\x1e\x87\x4e\x0a\xb9\x33\x77\
          40000 b\0\x10\x73\x1d\x0b\x17\x0b\x98\x48\x1a\x00\xbd\xca\x16\x1e\x87\x4e\x0a\xb9\x33\x77",
    ),
];

// The names of the root and of what `:/a` shows of it.
const ROOT: &[u8] = b"9e875c512d63c924f4d9470217af46b123963bf8";

const BELOW: &[u8] = b"10731d0b170b98481a00bdca161e874e0ab93377";

// The names of the root of both, of the trees that have its directories as x and as y, and of the tree that has both.
const BOTH: &[u8] = b"03c63c265f7e6203a42c3b52dc2a21b673b59417";

const X: &[u8] = b"f8091e7f21189147f5f6f843bf4586d832124b50";

const Y: &[u8] = b"3f2cb05494b6ce00964c0704ec14bd09ba3ed569";

const JOINED: &[u8] = b"df7d4cd6b600939a0988bf564683176395287aeb";

fn table_of(alloc: Global, text: &[u8]) -> Option<Table> {
    let filter = parse(alloc, text).ok()?;
    Table::compile(alloc, &filter).ok()
}

fn stored(alloc: Global) -> Option<Store> {
    let mut store = Store::new(alloc);
    for (kind, body) in &OBJECTS {
        store.put_slice(*kind, body).ok()?;
    }
    Some(store)
}

// What the table shows of a tree. None: the store hasn't the tree, or nothing is answered.
fn asked<L: Ledger>(
    alloc: Global,
    store: &mut Store,
    table: &Table,
    root: &Name,
    memo: &mut Memo,
    blank: Blank,
) -> Option<Name>
    requires name { blank.name ≡ L.name }
    requires parts { blank.parts ≡ L.parts }
    requires some { 0 < blank.parts }
    requires memo { IsTrueFor store.old table.now 0 memo.old }
    ensures { IsTrueFor store.new table.now 0 memo.new }
{
    if !store.has(Kind::Tree, root) {
        return None;
    }
    let mut steps = Steps::<L>::new(blank);
    shown(alloc, store, table, 0, *root, memo, &mut steps).ok()
}

// What is shown of a tree with a new memo of one entry, once or twice. None: the memo has something else for it then.
fn answer(alloc: Global, store: &mut Store, table: &Table, twice: bool) -> Option<Name> {
    let root = Name::from_hex(ROOT)?;
    let mut memo = Memo::new(alloc, 1).ok()?;
    let first = asked::<Brand>(alloc, store, table, &root, &mut memo, Blank::new(1))?;
    let last = if twice {
        asked::<Brand>(alloc, store, table, &root, &mut memo, Blank::new(1))?
    } else {
        first
    };
    if memo.get(0, 0, &root) == Some(last) {
        Some(last)
    } else {
        None
    }
}

// Where the memo has the tree, `shown` takes no step by its contract: so the second time takes none.
#[test]
fn what_was_shown_is_held(rt: HostRuntime) -> Result<(), Fail> {
    let alloc = rt.alloc();
    let (Some(mut store), Some(table)) = (stored(alloc), table_of(alloc, b":/a")) else {
        return Err(Fail::from("no tree"));
    };
    let below = Name::from_hex(BELOW);
    assert!(rt; below.is_some());
    assert!(rt; answer(alloc, &mut store, &table, false) == below);
    assert!(rt; answer(alloc, &mut store, &table, true) == below);
    Ok(())
}

// Whether the memo has behind a call what the two entries show, and both joined. None: nothing is shown.
fn has_parts(alloc: Global, store: &mut Store, table: &Table) -> Option<bool> {
    let root = Name::from_hex(BOTH)?;
    let below = Name::from_hex(BELOW)?;
    let x = Name::from_hex(X)?;
    let y = Name::from_hex(Y)?;
    let both = Name::from_hex(JOINED)?;
    let mut memo = Memo::new(alloc, 3).ok()?;
    asked::<Brand>(alloc, store, table, &root, &mut memo, Blank::new(1))?;
    let first = memo.get(0, 1, &below) == Some(x);
    let second = memo.get(0, 2, &below) == Some(y);
    let joined = memo.joined(&x, &y) == Some(both);
    Some(first && second && joined)
}

#[test]
fn parts_are_held(rt: HostRuntime) -> Result<(), Fail> {
    let alloc = rt.alloc();
    let (Some(mut store), Some(table)) = (stored(alloc), table_of(alloc, b":[x=:/a,y=:/b]")) else {
        return Err(Fail::from("no tree"));
    };
    assert!(rt; has_parts(alloc, &mut store, &table) == Some(true));
    Ok(())
}
