// The words and the inputs of calls.
use proj_io::{MemSink, MemSource};
use std::alloc::{AllocError, Global};

pub(crate) const FIRST: &[u8] = b"commit refs/heads/main\n\
committer A <a@x> 1700000000 +0000\n\
data 5\n\
init\n\
M 100644 inline a/f\n\
data 6\n\
hello\n";

// Its blob stands in front of the commit, which names it by its mark.
pub(crate) const SECOND: &[u8] = b"blob\n\
mark :1\n\
data 2\n\
2\n\
commit refs/heads/main\n\
mark :2\n\
committer A <a@x> 1700000000 +0000\n\
data 4\n\
two\n\
from 5990ba6163d77f77071ca2e8e9899c368dbc6eb7\n\
M 100644 :1 a/g\n";

// It has an annotated tag of its commit.
pub(crate) const THIRD: &[u8] = b"commit refs/heads/main\n\
committer A <a@x> 1700000000 +0000\n\
data 6\n\
three\n\
from 592cd3665c8a2250cf7988e22686ce308524df8c\n\
M 100644 inline b/k\n\
data 2\n\
3\n\
tag v1\n\
from refs/heads/main\n\
tagger A <a@x> 1700000000 +0000\n\
data 3\n\
v1\n";

// A commit that is pushed upon what `:/a` shows of the third.
pub(crate) const PUSHED: &[u8] = b"commit refs/heads/main\n\
committer A <a@x> 1700000000 +0000\n\
data 5\n\
push\n\
from 4ffce39390175623cadae335183ddb854ef98cbd\n\
M 100644 inline h\n\
data 2\n\
4\n";

pub(crate) const IMPORT: &[&str] = &["import"];

pub(crate) const PUSH: &[&str] = &["push", "refs/heads/main", ":/a"];

pub(crate) const PROJECT: &[&str] = &["project", "refs/heads/main", ":/a"];

// What all of each tree is shown as.
pub(crate) const WHOLE: &[&str] = &["project", "refs/heads/main", ":nop"];

// The tags beside it.
pub(crate) const TAGS: &[&str] = &["tags", "refs/heads/main", ":nop"];

pub(crate) const RULE: &[&str] = &["rule", "2"];

pub(crate) const BATCH: &[&str] = &["batch"];

pub(crate) fn strings(alloc: Global, words: &[&str]) -> Result<Vec<String>, AllocError> {
    let mut all = Vec::new(alloc);
    for word in words {
        all.push(String::from_str(alloc, *word)?)?;
    }
    Ok(all)
}

// A source of these bytes that never fails.
pub(crate) fn source(alloc: Global, bytes: &[u8]) -> Result<MemSource, AllocError> {
    Ok(MemSource::new(bytes.to_vec(alloc)?, 64, Vec::new(alloc)))
}

// An empty sink that never fails.
pub(crate) fn sink(alloc: Global) -> MemSink {
    MemSink::new(alloc, 64, Vec::new(alloc))
}
