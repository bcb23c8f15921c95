// A store of objects.
ghost use Rattle.std.specs.Prelude.{◌≡◌, ◌⊎◌, ◌∷◌, [], length, IfOk, IfErr, OnOk, OnErr, None};
ghost use Rattle.std.specs.Prelude.{true, map, Some};
ghost use Rattle.git_objects.specs.Bodies.{tree_entries};
ghost use Rattle.git_objects.specs.Views.{entry_value};
ghost use Rattle.std.specs.Option.{option_map};
ghost use Rattle.git_objects.specs.Names.{name};
ghost use Rattle.object_store.specs.Objects.{find_named, has, is_body};
ghost use Rattle.object_store.specs.Judgements.{IsJudged};
ghost use Rattle.object_store.specs.Objects.{IsStore};
ghost use Rattle.object_store.specs.Puts.{of_body, refusal, with_object};
ghost use Rattle.object_store.specs.Errors.{object_value, refusal_told};
ghost use Rattle.object_store.specs.Sizes.{sizes, stats_of};
ghost use Rattle.object_store.specs.Unfolding.{body_flat};

use crate::recent::{RECENT, recent_of};
use crate::shelf::{Judged, Place, Shelf};
use git_objects::{EntryView, Kind, Name};
use indexmap::IndexMap;
use std::alloc::{AllocError, Global};
use std::marker::Model;

/// Why an object is not taken in.
#[derive(Clone, Copy, Debug, PartialEq, Eq)]
pub enum PutError {
    /// The bytes are not a canonical body of that kind.
    NotCanonical,
    /// The first child in the body's order that is not held with the kind that the body gives it, or that is an empty
    /// tree below another.
    MissingChild { name: Name },
    /// Another kind or body has that name.
    Collision { name: Name },
    OutOfMemory,
}

/// An object, lent from its store.
#[derive(Clone, Copy)]
pub struct ObjectRef<'a> {
    pub kind: Kind,
    pub body: &'a [u8],
}

/// How large a tree is. Each number is held at 4,294,967,295 where it is greater.
#[derive(Clone, Copy, Debug, PartialEq, Eq)]
pub struct TreeStats {
    /// Leaves: files, links and modules.
    pub files: u32,
    /// Components of the deepest path.
    pub depth: u32,
    /// Bytes of the longest path's text.
    pub longest: u32,
}

/// Objects with distinct names in order of arrival, each after its children. Their bodies stand in one arena.
#[derive(Drop)]
pub struct Store {
    pub(crate) arena: Vec<u8>,
    pub(crate) places: IndexMap<Name, Place>,
    // The numbers of trees that were put last, in order of arrival, where `recent_of` has them.
    pub(crate) recent: [usize; RECENT],
}

impl Model for Store {
    ghost use Rattle.std.specs.Prelude.{List};
    ghost use Rattle.object_store.specs.Objects.{Object};
    ghost use Rattle.object_store.specs.Places.{placed_objects, HoldsStore};

    ghost Value = { List Object };

    ghost view = { λ s. placed_objects s.arena.items s.places.entries };

    ghost invariant = { λ s. HoldsStore s.arena.items s.places.entries };
}

impl Store {
    pub fn new(alloc: Global) -> Store
        ensures { result ≡ [] }
    {
        Store {
            arena: Vec::new(alloc),
            places: IndexMap::new(alloc),
            recent: [0; RECENT],
        }
    }

    /// The object of that name. Needs no memory.
    pub fn get(&self, name: &Name) -> Option<ObjectRef<'_>>
        ensures object { option_map object_value result ≡ find_named self.now name.now.0 }
        ensures store { IsStore self.now }
    {
        self.shelf().get(name)
    }

    /// What `get` gives, faster where objects are asked for in the order of their arrival: the object that arrived
    /// with the number `near`, from 0 on, is looked at first, and `near` becomes the number of the one behind the
    /// object that is found. Needs no memory.
    pub fn get_near(&self, near: &mut usize, name: &Name) -> Option<ObjectRef<'_>>
        ensures { option_map object_value result ≡ find_named self.now name.now.0 }
    {
        self.shelf().get_near(near, name)
    }

    /// Whether an object of that kind has that name. Needs no memory.
    pub fn has(&self, kind: Kind, name: &Name) -> bool
        ensures { result ≡ has kind self.now name.now.0 }
    {
        self.shelf().has(kind, name)
    }

    /// How many objects are held.
    pub fn len(&self) -> usize
        ensures { result ≡ length self.now }
    {
        self.places.len()
    }

    /// How large the tree of that name is. It was worked out when the tree was put, and takes no memory.
    pub fn stats(&self, name: &Name) -> Option<TreeStats>
        ensures { result ≡ stats_of self.now name.now.0 }
    {
        self.shelf().stats(name)
    }

    // The arena and the places, lent.
    fn shelf(&self) -> Shelf<'_>
        ensures { result ≡ self.now }
    {
        Shelf {
            arena: &self.arena,
            places: &self.places,
        }
    }

    // Adds an object that fits.
    fn add(
        &mut self,
        kind: Kind,
        key: Name,
        body: &[u8],
        stats: TreeStats,
    ) -> Result<(), AllocError>
        requires key { key.0 ≡ name kind body.now }
        requires new { find_named self.old key.0 ≡ None }
        requires body { is_body self.old kind body.now ≡ true }
        requires stats { stats ≡ sizes (body_flat self.old kind body.now) }
        ensures ok { OnOk result (self.new ≡ record { kind = kind; body = body.now } ∷ self.old) }
        ensures err { OnErr result (self.new ≡ self.old) }
        ensures store { IsStore self.new }
    {
        let at = self.arena.len();
        self.arena.reserve(body.len())?;
        let place = Place {
            kind,
            at,
            len: body.len(),
            stats,
        };
        if self.places.insert(key, place).is_err() {
            return Err(AllocError);
        }
        let copied = self.arena.extend_from_slice(body);
        prove!(copied.is_ok());
        Ok(())
    }

    // Takes in what was judged of a body, and gives its name.
    fn take(&mut self, kind: Kind, body: &[u8], judged: Judged) -> Result<Name, PutError>
        requires store { IsStore self.old }
        requires judged { IsJudged self.old kind body.now judged }
        ensures ok { IfOk result (λ n. (n.0 ≡ name kind body.now) × (refusal self.old kind body.now ≡ None)
            × (self.new ≡ with_object self.old kind body.now)) }
        ensures err { IfErr result (λ e. (self.new ≡ self.old) × (e ≡ PutError.OutOfMemory)) }
        ensures store { IsStore self.new }
    {
        match judged {
            Judged::Held { name } => Ok(name),
            Judged::New { name, stats } => {
                let number = self.places.len();
                if self.add(kind, name, body, stats).is_err() {
                    return Err(PutError::OutOfMemory);
                }
                if kind == Kind::Tree {
                    self.recent[recent_of(body)] = number;
                }
                Ok(name)
            }
        }
    }

    /// Takes an object in, and gives its name. One that is held already changes nothing. Of several faults the body's
    /// comes first, then the first child in the body's order, then a collision.
    pub fn put(&mut self, kind: Kind, body: Vec<u8>) -> Result<Name, PutError>
        ensures ok { IfOk result (λ n. (n.0 ≡ name kind body.items) × (refusal self.old kind body.items ≡ None)
            × (self.new ≡ with_object self.old kind body.items)) }
        ensures err { IfErr result (λ e. (self.new ≡ self.old)
            × ((e ≡ PutError.OutOfMemory) ⊎ (refusal self.old kind body.items ≡ refusal_told e))) }
        ensures store { IsStore self.new }
    {
        self.put_slice(kind, &body)
    }

    /// Takes an object in as `put` does, from a body that is lent.
    pub fn put_slice(&mut self, kind: Kind, body: &[u8]) -> Result<Name, PutError>
        ensures ok { IfOk result (λ n. (n.0 ≡ name kind body.now) × (refusal self.old kind body.now ≡ None)
            × (self.new ≡ with_object self.old kind body.now)) }
        ensures err { IfErr result (λ e. (self.new ≡ self.old)
            × ((e ≡ PutError.OutOfMemory) ⊎ (refusal self.old kind body.now ≡ refusal_told e))) }
        ensures store { IsStore self.new }
    {
        let near = self.recent[recent_of(body)];
        let judged = self.shelf().judge(kind, body, near)?;
        self.take(kind, body, judged)
    }

    /// Takes an object in as `put_slice` does, from a body of which the caller knows that it is one of that kind and
    /// that its children are held. A commit's body isn't read again, nor is a tree's that is held already.
    pub fn put_fitting(&mut self, kind: Kind, body: &[u8]) -> Result<Name, PutError>
        requires { of_body self.old kind body.now None ≡ None }
        ensures ok { IfOk result (λ n. (n.0 ≡ name kind body.now) × (refusal self.old kind body.now ≡ None)
            × (self.new ≡ with_object self.old kind body.now)) }
        ensures err { IfErr result (λ e. (self.new ≡ self.old)
            × ((e ≡ PutError.OutOfMemory) ⊎ (refusal self.old kind body.now ≡ refusal_told e))) }
        ensures store { IsStore self.new }
    {
        let near = self.recent[recent_of(body)];
        let judged = self.shelf().judge_fitting(kind, body, near)?;
        self.take(kind, body, judged)
    }

    /// Takes a tree in as `put_fitting` does, from its entries too: they aren't read from the body.
    pub fn put_listed(&mut self, entries: &[EntryView<'_>], body: &[u8]) -> Result<Name, PutError>
        requires body { of_body self.old Kind.Tree body.now None ≡ None }
        requires entries { tree_entries body.now ≡ Some (map entry_value entries.now) }
        ensures ok { IfOk result (λ n. (n.0 ≡ name Kind.Tree body.now)
            × (refusal self.old Kind.Tree body.now ≡ None)
            × (self.new ≡ with_object self.old Kind.Tree body.now)) }
        ensures err { IfErr result (λ e. (self.new ≡ self.old)
            × ((e ≡ PutError.OutOfMemory) ⊎ (refusal self.old Kind.Tree body.now ≡ refusal_told e))) }
        ensures store { IsStore self.new }
    {
        let near = self.recent[recent_of(body)];
        let judged = self.shelf().judge_listed(entries, body, near)?;
        self.take(Kind::Tree, body, judged)
    }
}
