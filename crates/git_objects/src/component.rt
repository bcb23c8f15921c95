// Components of paths.
ghost use Rattle.std.specs.Prelude.{◌≡◌, ℕ, List, IfOk, true};
ghost use Rattle.git_objects.specs.Paths.{is_bytes, is_plain, is_component};

use std::alloc::{AllocError, Global};
use std::marker::Model;

/// One part of a path: non-empty bytes without `/` and without a zero byte, other than `.`, `..` and `.git`.
#[derive(Debug, Drop)]
pub struct Component {
    inner: Vec<u8>,
}

impl Model for Component {
    ghost Value = { List ℕ };

    ghost view = { λ c. c.inner.items };

    ghost invariant = { λ c. is_component c.inner.items ≡ true };
}

impl Component {
    pub fn of(bytes: Vec<u8>) -> Component
        requires { is_component bytes.items ≡ true }
        ensures { result ≡ bytes.items }
    {
        Component { inner: bytes }
    }

    pub fn bytes(&self) -> &[u8]
        ensures bytes { result.now ≡ self.now }
        ensures component { is_component self.now ≡ true }
    {
        &self.inner
    }

    pub fn copy(&self, alloc: Global) -> Result<Component, AllocError>
        ensures { IfOk result (λ copy. copy ≡ self.now) }
    {
        Ok(Component {
            inner: self.inner.to_vec(alloc)?,
        })
    }
}

// Whether no byte is zero or `/`.
fn is_plain(c: &[u8]) -> bool
    ensures plain { result ≡ is_plain c.now }
    ensures bytes { is_bytes c.now ≡ true }
{
    c.iter().all(|x| *x != 0 && *x != b'/')
}

/// Whether the bytes are a component.
pub fn is_component(c: &[u8]) -> bool
    ensures { result ≡ is_component c.now }
{
    if !is_plain(c) {
        return false;
    }
    if c.is_empty() {
        return false;
    }
    if c == b".".as_slice() {
        return false;
    }
    if c == b"..".as_slice() {
        return false;
    }
    c != b".git".as_slice()
}
