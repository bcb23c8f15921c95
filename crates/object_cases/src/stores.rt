// Stores of objects.
use crate::values::{kind_of, word_and_digits};
use case_lines::{Fault, Texts, Word, name_of, printed, text_of};
use git_objects::{Kind, Name};
use object_store::{PutError, Store};
use std::alloc::Global;

/// The answer to a line on the store.
pub fn answer(
    alloc: Global,
    texts: &mut Texts,
    store: &mut Store,
    form: &str,
    words: &[Word],
) -> Result<Option<String>, Fault> {
    match form {
        "new" => {
            *store = Store::new(alloc);
            Ok(None)
        }
        "put" => put(alloc, texts, store, words, false).map(Some),
        "lend" => put(alloc, texts, store, words, true).map(Some),
        _ => asked(alloc, texts, store, form, words).map(Some),
    }
}

// What is asked of a store that stays.
fn asked(
    alloc: Global,
    texts: &Texts,
    store: &Store,
    form: &str,
    words: &[Word],
) -> Result<String, Fault> {
    match form {
        "get" => held(alloc, texts, store, words),
        "count" => count(alloc, store),
        "stats" => stats(alloc, store, object_name(texts, words)?),
        _ => Err(Fault::BadLine),
    }
}

// The only word, as a name.
fn object_name(texts: &Texts, words: &[Word]) -> Result<Name, Fault> {
    match words {
        [word] => name_of(texts, word),
        _ => Err(Fault::BadLine),
    }
}

// Puts an object, owned or lent. Its name's bytes are the text `last` then.
fn put(
    alloc: Global,
    texts: &mut Texts,
    store: &mut Store,
    words: &[Word],
    is_lent: bool,
) -> Result<String, Fault> {
    let [kind, pieces @ ..] = words else {
        return Err(Fault::BadLine);
    };
    let body = texts.spelled(pieces)?;
    let result = taken(store, kind_of(kind)?, body, is_lent);
    if let Ok(name) = result {
        texts.set(b"last", name.bytes().to_vec(alloc)?)?;
    }
    told(alloc, result)
}

fn taken(store: &mut Store, kind: Kind, body: Vec<u8>, is_lent: bool) -> Result<Name, PutError> {
    if is_lent {
        return store.put_slice(kind, &body);
    }
    store.put(kind, body)
}

// What a store says to an object.
fn told(alloc: Global, answer: Result<Name, PutError>) -> Result<String, Fault> {
    match answer {
        Ok(name) => word_and_digits(alloc, "taken", &name),
        Err(PutError::NotCanonical) => text_of(alloc, "no body"),
        Err(PutError::MissingChild { name }) => word_and_digits(alloc, "missing", &name),
        Err(PutError::Collision { name }) => word_and_digits(alloc, "collision", &name),
        Err(PutError::OutOfMemory) => Err(Fault::OutOfMemory),
    }
}

// The kind and the body of the object whose name is the only word.
fn held(alloc: Global, texts: &Texts, store: &Store, words: &[Word]) -> Result<String, Fault> {
    match store.get(&object_name(texts, words)?) {
        None => text_of(alloc, "none"),
        Some(object) => object_text(alloc, object.kind, object.body),
    }
}

fn object_text(alloc: Global, kind: Kind, body: &[u8]) -> Result<String, Fault> {
    let kind = match kind {
        Kind::Blob => "blob",
        Kind::Tree => "tree",
        Kind::Commit => "commit",
    };
    let body = printed(alloc, body)?;
    Ok(format!(in alloc; "{kind} {body}")?)
}

// How many objects there are.
fn count(alloc: Global, store: &Store) -> Result<String, Fault> {
    Ok(format!(in alloc; "{} objects", store.len())?)
}

fn stats(alloc: Global, store: &Store, name: Name) -> Result<String, Fault> {
    match store.stats(&name) {
        None => text_of(alloc, "no tree"),
        Some(sizes) => Ok(format!(in alloc;
            "files {} depth {} longest {}",
            sizes.files, sizes.depth, sizes.longest
        )?),
    }
}
