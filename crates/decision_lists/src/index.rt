// Where each cone of a decision list first stands, found by a number of the cone in place of a walk through the list.
ghost use Rattle.std.specs.Prelude.{◌≡◌, ◌++◌, [], ◌∷◌, true, false, cond, is_some, nat_eq, slice_get};
ghost use Rattle.std.specs.Prelude.{IfOk, OnOk};
ghost use Rattle.std.specs.HashMap.{get};
ghost use Rattle.git_objects.specs.Paths.{same_path};
ghost use Rattle.decision_lists.specs.Entries.{cone_of};
ghost use Rattle.decision_lists.specs.Operations.{alive_in};
ghost use Rattle.decision_lists.specs.Index.{stepped, mixed, code_from, same_cone, is_cone, first_of, Finds, IsIndex};

use crate::entry::{Entry, is_alive};
use git_objects::Component;
use std::alloc::{AllocError, Global};
use std::collections::HashMap;

// The first places of cones by their numbers, and whether no two cones share a number.
#[derive(Debug, Drop)]
pub struct Index {
    places: HashMap<u64, usize>,
    clean: bool,
}

// A number, and one byte more.
fn stepped(code: u64, byte: u64) -> u64
    ensures { result ≡ stepped code byte }
{
    let longer = code
        .wrapping_mul(6_364_136_223_846_793_005)
        .wrapping_add(byte);
    longer ^ (longer >> 32)
}

// A number, and one component more.
fn mixed(code: u64, component: &[u8]) -> u64
    ensures { result ≡ mixed code component.now }
{
    let mut code = code;
    for x in component {
        code = stepped(code, u64::from(*x));
    }
    stepped(code, 47)
}

// The number of a path.
fn path_code(path: &[Component]) -> u64
    ensures { result ≡ code_from 1 path.now }
{
    let mut code = 1;
    for c in path {
        code = mixed(code, c.bytes());
    }
    code
}

// The number of a cone with this number of its path.
fn cone_code(point: bool, code: u64) -> u64
    ensures { result ≡ stepped code (cond point 1 2) }
{
    stepped(code, if point { 1 } else { 2 })
}

// Whether two paths have the same components.
fn is_same(path: &[Component], other: &[Component]) -> bool
    ensures { result ≡ same_path path.now other.now }
{
    if path.len() != other.len() {
        return false;
    }
    for i in 0..path.len() {
        if path[i].bytes() != other[i].bytes() {
            return false;
        }
    }
    true
}

// Whether the entry has this cone.
fn has_cone(entry: &Entry, point: bool, path: &[Component]) -> bool
    ensures { result ≡ same_cone entry.now.0 (cone_of point path.now) }
{
    entry.point == point && is_same(entry.base.as_slice(), path)
}

// Whether an entry with this cone stands at the place.
fn stands(entries: &[Entry], place: usize, point: bool, path: &[Component]) -> bool
    ensures { result ≡ is_cone (slice_get entries.now place) (cone_of point path.now) }
{
    if place >= entries.len() {
        return false;
    }
    has_cone(&entries[place], point, path)
}

impl Index {
    pub fn new(alloc: Global) -> Index
        ensures { IsIndex (get nat_eq result.places) result.clean [] }
    {
        Index {
            places: HashMap::new(alloc),
            clean: true,
        }
    }

    // Whether the cone of a path with this number stands in the list.
    fn has(&self, entries: &[Entry], point: bool, path: &[Component], code: u64) -> bool
        requires finds { Finds (get nat_eq self.now.places) true entries.now }
        requires code { code ≡ code_from 1 path.now }
        ensures { result ≡ is_some (first_of entries.now (cone_of point path.now)) }
    {
        match self.places.get(&cone_code(point, code)) {
            None => false,
            Some(place) => stands(entries, *place, point, path),
        }
    }

    // Whether no cone of the list has all of the cone, where no two cones share a number.
    fn is_alive_by_code(&self, entries: &[Entry], point: bool, base: &[Component]) -> bool
        requires finds { Finds (get nat_eq self.now.places) true entries.now }
        ensures { result ≡ alive_in entries.now (cone_of point base.now) }
    {
        let mut code = 1;
        for i in 0..base.len() {
            if self.has(entries, false, &base[..i], code) {
                return false;
            }
            code = mixed(code, base[i].bytes());
        }
        !self.has(entries, point, base, code)
    }

    // Whether no cone of the list has all of the cone.
    pub fn is_alive(&self, entries: &[Entry], point: bool, base: &[Component]) -> bool
        requires finds { Finds (get nat_eq self.now.places) self.now.clean entries.now }
        ensures { result ≡ alive_in entries.now (cone_of point base.now) }
    {
        if !self.clean {
            return is_alive(entries, point, base);
        }
        self.is_alive_by_code(entries, point, base)
    }

    // Notes the place of an entry that is to stand behind the list.
    pub fn add(&mut self, entries: &[Entry], entry: &Entry) -> Result<(), AllocError>
        requires { IsIndex (get nat_eq self.old.places) self.old.clean entries.now }
        ensures { OnOk result (IsIndex (get nat_eq self.new.places) self.new.clean (entries.now ++ entry.now ∷ [])) }
    {
        if !self.clean {
            return Ok(());
        }
        let base = entry.base.as_slice();
        let code = cone_code(entry.point, path_code(base));
        match self.places.get(&code).copied() {
            None => match self.places.insert(code, entries.len()) {
                Ok(_) => Ok(()),
                Err(_) => Err(AllocError),
            },
            Some(place) => {
                if !stands(entries, place, entry.point, base) {
                    self.clean = false;
                }
                Ok(())
            }
        }
    }

    // Makes the index one that promises nothing, and so serves for any list.
    pub fn spoil(&mut self)
        ensures { self.new.clean ≡ false }
    {
        self.clean = false;
    }

    // The index of a list.
    pub fn of(alloc: Global, entries: &[Entry]) -> Result<Index, AllocError>
        ensures { IfOk result (λ index. IsIndex (get nat_eq index.places) index.clean entries.now) }
    {
        let mut index = Index::new(alloc);
        for i in 0..entries.len() {
            index.add(&entries[..i], &entries[i])?;
        }
        Ok(index)
    }
}
