// What a keeper's items spell.
ghost use Rattle.std.specs.Prelude.{◌≡◌, [], Err, None, IfErr, IfOk, IfSome};
ghost use Rattle.std.specs.FinMap.{find};
ghost use Rattle.std.specs.Option.{option_map};
ghost use Rattle.git_objects.specs.Parts.{name_bytes};
ghost use Rattle.git_objects.specs.Refs.{bytes_cmp};
ghost use Rattle.projection_ground.specs.Grounds.{IsGround};
ghost use Rattle.proj_io.specs.Counts.{Counts};
ghost use Rattle.proj_io.specs.Uses.{IsOnlyRead};
ghost use Rattle.ref_store.specs.Refs.{head_of};
ghost use Rattle.state_items.specs.Items.{Held, read_items};
ghost use Rattle.state_items.specs.Readings.{Holds};
ghost use Rattle.repo_ground.specs.Contents.{Spells};
ghost use Rattle.repo_ground.specs.Loads.{IsEmpty, IsLoaded, IsLoadFault, new_memo};

use crate::filter_maps::FilterMaps;
use crate::loading::{load_items, reserve_items};
use commit_map::CommitMap;
use filter_cache::Memo;
use filter_routes::Tables;
use git_objects::Name;
use indexmap::IndexSet;
use path_names::RefName;
use proj_io::Keeper;
use projection_ground::{Ground, TrueMaps};
use ref_store::Refs;
use state_items::{Loaded, Reading};
use std::alloc::{AllocError, Global};
use std::marker::Model;
use tag_objects::Tag;

// How many entries of each kind the memo of a new state may hold.
const MEMO_CAPACITY: usize = 65_536;

/// Why items are not loaded.
#[derive(Clone, Copy, Debug, PartialEq, Eq)]
pub enum LoadError {
    /// The keeper failed.
    StoreFault,
    /// The first item, numbered from 0, that breaks a rule, and the first byte of the field that breaks it.
    Damaged { item: u32, at: u64 },
    /// An item's object has the name of another object.
    Collision { name: Name },
    OutOfMemory,
}

/// What a keeper's items hold: commits upon which projections are made, refs, and the names of the known blobs.
pub struct State {
    /// All objects, also some that no item holds, and the commits that items hold. The map is that of the filter that
    /// is selected, and empty where none is.
    pub ground: Ground,
    pub refs: Refs,
    /// The names of the blobs that items hold.
    pub blobs: IndexSet<Name>,
    // The names of the objects that items hold, in order of arrival.
    pub(crate) held: IndexSet<Name>,
    // One of each name, in the byte order of their names.
    pub(crate) tags: Vec<Tag>,
    // The map of the filter that is selected is the ground's.
    pub(crate) maps: FilterMaps,
    // How many of the first entries of the ground's map items hold.
    pub(crate) kept: usize,
    // How many items there are, and their bytes together.
    pub(crate) number: u32,
    pub(crate) size: u64,
    pub(crate) alloc: Global,
}

// Written out, so that to drop one is a call: a derived drop would stand in full in each function that drops one, and
// in its proof.
impl Drop for State {
    fn drop(self) {
        let State {
            ground: _,
            refs: _,
            blobs: _,
            held: _,
            tags: _,
            maps: _,
            kept: _,
            number: _,
            size: _,
            alloc: _,
        } = self;
    }
}

impl Model for State {
    ghost use Rattle.std.specs.Coded.{codes};
    ghost use Rattle.std.specs.Prelude.{map};
    ghost use Rattle.filter_text.specs.contracts.filter.Filter as filters;
    ghost use Rattle.git_objects.specs.Parts.{name_bytes};
    ghost use Rattle.repo_ground.specs.Contents.{Contents};

    ghost Value = { Contents };

    ghost coded = { Prim.hlevel (codes, filters.the_row.coded) };

    ghost view = { λ s. record {
      basis = s.ground;
      refs = s.refs;
      blobs = map name_bytes s.blobs.keys;
      names = map name_bytes s.held.keys;
      tags = s.tags.items;
      maps = s.maps.maps;
      selected = s.maps.selected;
      kept = s.kept;
      number = s.number;
      size = s.size;
    } };
}

impl State {
    /// No objects, no refs, and no items.
    pub fn empty(alloc: Global) -> Result<State, AllocError>
        ensures { IfOk result IsEmpty }
    {
        let memo = Memo::new(alloc, MEMO_CAPACITY)?;
        Ok(State::of(alloc, Reading::new(alloc), memo, 0, 0))
    }

    // The state of what was read of so many items, which have so many bytes.
    fn of(alloc: Global, reading: Reading, memo: Memo, number: u32, size: u64) -> State
        requires { memo ≡ new_memo }
        ensures spells { (h : Held) → Holds h reading → Spells h result × IsGround result.basis }
        ensures store { result.basis.store ≡ reading.objects }
        ensures selected { result.selected ≡ None }
        ensures map { result.basis.map ≡ [] }
        ensures memo { result.basis.memo ≡ memo }
        ensures number { result.number ≡ number }
        ensures size { result.size ≡ size }
    {
        let Loaded {
            store,
            names,
            graph,
            blobs,
            refs,
            kept,
            rule,
            tags,
        } = reading.finish();
        let ground = Ground {
            store,
            graph,
            map: CommitMap::new(alloc),
            tables: Tables::new(alloc),
            memo,
            rule,
            true_maps: TrueMaps::new(alloc),
        };
        State {
            ground,
            refs,
            blobs,
            held: names,
            tags,
            maps: FilterMaps::of(kept),
            kept: 0,
            number,
            size,
            alloc,
        }
    }

    /// Reads all items of the keeper.
    pub fn load<K: Keeper>(alloc: Global, keeper: &mut K) -> Result<State, LoadError>
        requires { K.is_open keeper.old }
        ensures ok { IfOk result (IsLoaded (K.items keeper.old) (K.number keeper.old)) }
        ensures err { IfSome (K.items keeper.old) (λ items. IfErr result (λ e. IsLoadFault e (read_items items))) }
        ensures kept { IsOnlyRead K.items K.number K.is_open K.tells K.moment K.left_since keeper.old keeper.new }
        ensures cause { Counts (K.faults keeper.old) (K.faults keeper.new) (result ≡ Err LoadError.StoreFault) }
    {
        let count = match keeper.count() {
            Err(_) => return Err(LoadError::StoreFault),
            Ok(count) => count,
        };
        let mut reading = Reading::new(alloc);
        match reserve_items(keeper, count, &mut reading) {
            Err(e) => return Err(e),
            Ok(()) => {}
        }
        let size = match load_items(keeper, count, &mut reading) {
            Err(e) => return Err(e),
            Ok(size) => size,
        };
        match Memo::new(alloc, MEMO_CAPACITY) {
            Err(_) => Err(LoadError::OutOfMemory),
            Ok(memo) => Ok(State::of(alloc, reading, memo, count, size)),
        }
    }

    /// The tags, one of each name, in the byte order of their names. Needs no memory.
    pub fn tags(&self) -> &[Tag]
        ensures { result.now ≡ self.now.tags }
    {
        &self.tags
    }

    /// The commit that a ref names.
    pub fn head(&self, refname: &RefName) -> Option<Name>
        ensures head { option_map name_bytes result ≡ head_of self.now.refs refname.now }
        ensures held { (h : Held) → Spells h self.now →
            option_map name_bytes result ≡ find bytes_cmp refname.now h.refs }
    {
        self.refs.get(refname)
    }
}
