// A store that is filled from bytes that are read into its own memory.
ghost use Rattle.std.specs.Prelude.{◌≡◌, ◌⊎◌, ◌+◌, ◌≤◌, ◌∷◌, [], length, take};
ghost use Rattle.std.specs.Prelude.{drop, true, None, IfOk, IfErr};
ghost use Rattle.std.specs.Prelude.{OnOk, OnErr, replicate};
ghost use Rattle.std.specs.Option.{option_map};
ghost use Rattle.std.specs.Borrow.{sem};
ghost use Rattle.git_objects.specs.Names.{name};
ghost use Rattle.object_store.specs.Errors.{object_value, refusal_told};
ghost use Rattle.object_store.specs.Filling.{LendsPiece};
ghost use Rattle.object_store.specs.Objects.{find_named, is_body, IsStore};
ghost use Rattle.object_store.specs.Places.{Intake};
ghost use Rattle.object_store.specs.Puts.{refusal, with_object};
ghost use Rattle.object_store.specs.Sizes.{sizes, stats_of};
ghost use Rattle.object_store.specs.Unfolding.{body_flat};

use crate::recent::{RECENT, recent_of};
use crate::shelf::{Judged, Place, Shelf};
use crate::{ObjectRef, PutError, Store, TreeStats};
use git_objects::{Kind, Name};
use indexmap::IndexMap;
use std::alloc::{AllocError, Global};
use std::marker::Model;

/// A store whose arena is filled piece by piece: bytes are written into a piece, and then objects are put whose bodies
/// stand in it. No body is copied.
#[derive(Drop)]
pub struct Incoming {
    arena: Vec<u8>,
    places: IndexMap<Name, Place>,
    from: usize,
    is_open: bool,
    // The numbers of trees that were put last, in order of arrival, where `recent_of` has them.
    recent: [usize; RECENT],
}

impl Model for Incoming {
    ghost use Rattle.std.specs.Prelude.{drop};
    ghost use Rattle.object_store.specs.Places.{placed_objects, HoldsIntake, Intake};

    ghost Value = { Intake };

    ghost view = { λ s. record {
      objects = placed_objects s.arena.items s.places.entries;
      piece = drop s.from s.arena.items;
      is_open = s.is_open;
    } };

    ghost invariant = { λ s. HoldsIntake s.arena.items s.places.entries s.from s.is_open };
}

impl Incoming {
    /// No objects, and an empty piece.
    pub fn new(alloc: Global) -> Incoming
        ensures { result ≡ record { objects = []; piece = []; is_open = true } }
    {
        Incoming {
            arena: Vec::new(alloc),
            places: IndexMap::new(alloc),
            from: 0,
            is_open: true,
            recent: [0; RECENT],
        }
    }

    /// Takes memory for so many more bytes at once.
    pub fn reserve(&mut self, bytes: usize) -> Result<(), AllocError>
        ensures { self.new ≡ self.old }
    {
        self.arena.reserve_exact(bytes)
    }

    /// Takes memory for so many more objects beside their bodies at once.
    pub fn reserve_objects(&mut self, count: usize) -> Result<(), AllocError>
        ensures { self.new ≡ self.old }
    {
        self.places.reserve(count)
    }

    /// Begins another piece, of so many zeros. What stood in the piece before can't be written any more.
    pub fn begin(&mut self, size: usize) -> Result<(), AllocError>
        ensures ok { OnOk result (self.new
            ≡ record { objects = self.old.objects; piece = replicate size 0; is_open = true }) }
        ensures err { OnErr result (self.new ≡ self.old) }
    {
        let from = self.arena.len();
        self.arena.try_reserve(size)?;
        self.arena.resize(from + size, 0)?;
        self.from = from;
        self.is_open = true;
        Ok(())
    }

    /// Begins an empty piece.
    pub fn close(&mut self)
        ensures { self.new ≡ record { objects = self.old.objects; piece = []; is_open = true } }
    {
        self.from = self.arena.len();
        self.is_open = true;
    }

    /// The piece, to be written, as long as no object was put from it.
    pub fn piece_mut(&mut self) -> &mut [u8]
        requires { self.old.is_open ≡ true }
        ensures* lends { sem 𝓛 (LendsPiece self.entry result) }
        ensures piece { result.now ≡ self.old.piece }
    {
        let from = self.from;
        self.arena.slice_mut(from..)
    }

    pub fn piece(&self) -> &[u8]
        ensures { result.now ≡ self.now.piece }
    {
        &self.arena[self.from..]
    }

    /// How many objects are held.
    pub fn len(&self) -> usize
        ensures { result ≡ length self.now.objects }
    {
        self.places.len()
    }

    // The arena and the places, lent.
    fn shelf(&self) -> Shelf<'_>
        ensures { result ≡ self.now.objects }
    {
        Shelf {
            arena: &self.arena,
            places: &self.places,
        }
    }

    /// The object of that name. Needs no memory.
    pub fn get(&self, name: &Name) -> Option<ObjectRef<'_>>
        ensures object { option_map object_value result ≡ find_named self.now.objects name.now.0 }
        ensures store { IsStore self.now.objects }
    {
        self.shelf().get(name)
    }

    /// How large the tree of that name is. Needs no memory.
    pub fn stats(&self, name: &Name) -> Option<TreeStats>
        ensures { result ≡ stats_of self.now.objects name.now.0 }
    {
        self.shelf().stats(name)
    }

    // Enters an object that fits, whose body stands in the piece.
    fn enter(
        &mut self,
        kind: Kind,
        key: Name,
        at: usize,
        len: usize,
        stats: TreeStats,
    ) -> Result<(), AllocError>
        requires within { at + len ≤ length self.old.piece }
        requires key { key.0 ≡ name kind (take len (drop at self.old.piece)) }
        requires new { find_named self.old.objects key.0 ≡ None }
        requires body { is_body self.old.objects kind (take len (drop at self.old.piece)) ≡ true }
        requires stats { stats ≡ sizes (body_flat self.old.objects kind (take len (drop at self.old.piece))) }
        ensures ok { OnOk result (self.new.objects
            ≡ record { kind = kind; body = take len (drop at self.old.piece) } ∷ self.old.objects) }
        ensures err { OnErr result (self.new.objects ≡ self.old.objects) }
        ensures piece { self.new.piece ≡ self.old.piece }
        ensures store { IsStore self.new.objects }
    {
        self.is_open = false;
        let place = Place {
            kind,
            at: self.from + at,
            len,
            stats,
        };
        if self.places.insert(key, place).is_err() {
            return Err(AllocError);
        }
        Ok(())
    }

    /// Takes an object in as `Store::put_slice` does, from `len` bytes at a place of the piece.
    pub fn put(&mut self, kind: Kind, at: usize, len: usize) -> Result<Name, PutError>
        requires { at + len ≤ length self.old.piece }
        ensures ok { let b = take len (drop at self.old.piece) in IfOk result (λ n. (n.0 ≡ name kind b)
            × (refusal self.old.objects kind b ≡ None)
            × (self.new.objects ≡ with_object self.old.objects kind b)) }
        ensures err { let b = take len (drop at self.old.piece) in IfErr result (λ e.
            (self.new.objects ≡ self.old.objects)
            × ((e ≡ PutError.OutOfMemory) ⊎ (refusal self.old.objects kind b ≡ refusal_told e))) }
        ensures piece { self.new.piece ≡ self.old.piece }
        ensures store { IsStore self.new.objects }
    {
        let place = recent_of(&self.piece()[at..at + len]);
        let near = self.recent[place];
        let number = self.places.len();
        let body = &self.piece()[at..at + len];
        match self.shelf().judge(kind, body, near)? {
            Judged::Held { name } => Ok(name),
            Judged::New { name, stats } => match self.enter(kind, name, at, len, stats) {
                Ok(()) => {
                    if kind == Kind::Tree {
                        self.recent[place] = number;
                    }
                    Ok(name)
                }
                Err(_) => Err(PutError::OutOfMemory),
            },
        }
    }

    /// The store of the objects.
    pub fn finish(self) -> Store
        ensures { result ≡ self.objects }
    {
        let Incoming {
            arena,
            places,
            recent,
            ..
        } = self;
        Store {
            arena,
            places,
            recent,
        }
    }
}
