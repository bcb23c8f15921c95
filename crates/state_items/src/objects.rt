// The objects of an item.
ghost use Rattle.std.specs.Prelude.{◌≡◌, ◌<◌, ◌≤◌, ◌+◌, ◌^◌, ◌&&◌, ◌++◌, ◌∷◌, []};
ghost use Rattle.std.specs.Prelude.{ℕ, List, None, Some, Ok, Err, true};
ghost use Rattle.std.specs.Prelude.{false, length, take, drop, map, nat_le, IfErr, IfOk, OnOk, MatchResult, All};
ghost use Rattle.std.specs.List.{list_all};
ghost use Rattle.std.specs.Option.{is_some};
ghost use Rattle.git_objects.specs.declared.limits.TheConstants.{COMMITS, MESSAGE_BYTES, OBJECTS, TREE_DEPTH};
ghost use Rattle.git_objects.specs.declared.limits.TheConstants.{TREE_FILES, TREE_PATH_BYTES};
ghost use Rattle.git_objects.specs.Names.{name};
ghost use Rattle.git_objects.specs.CommitBodies.{commit_from};
ghost use Rattle.git_objects.specs.Parts.{name_bytes};
ghost use Rattle.commit_graph.specs.Graphs.{place_of};
ghost use Rattle.object_store.specs.Fits.{body_fits, tree_fits};
ghost use Rattle.object_store.specs.Objects.{Object, has, IsStore};
ghost use Rattle.object_store.specs.Puts.{refusal};
ghost use Rattle.object_store.specs.Unfolding.{flat};
ghost use Rattle.state_items.specs.HeldObjects.{HoldsObjects};
ghost use Rattle.state_items.specs.Arrivals.{AreNamed, HasArrived, HasParents, IsAdded, more_commits, place_in};
ghost use Rattle.state_items.specs.Arrivals.{with_blob_name, with_row};
ghost use Rattle.state_items.specs.Items.{kind_field, kind_of, object_field, objects_field, take_object};
ghost use Rattle.state_items.specs.Steps.{body_field, put_fault};
ghost use Rattle.state_items.specs.Stops.{IsStop, spot_at};

use crate::ItemFault;
use crate::cursor::Cursor;
use commit_graph::Graph;
use git_objects::limits::{
    BLOB_BYTES, COMMITS, MESSAGE_BYTES, OBJECTS, TREE_DEPTH, TREE_FILES, TREE_PATH_BYTES,
};
use git_objects::{CommitView, Kind, Name};
use indexmap::IndexSet;
use object_store::{Incoming, PutError, TreeStats};
use std::alloc::{AllocError, Global};

// How many bytes an item takes at least for an object.
const LEAST_OBJECT: usize = 5;

/// The objects that items have brought: the store, and what is held beside it.
#[derive(Drop)]
pub(crate) struct Objects {
    pub(crate) incoming: Incoming,
    pub(crate) names: IndexSet<Name>,
    pub(crate) graph: Graph,
    pub(crate) blobs: IndexSet<Name>,
}

// Where an object's body stands in the item.
#[derive(Clone, Copy)]
struct Part {
    kind: Kind,
    at: usize,
    len: usize,
}

fn kind_of(x: u8) -> Option<Kind>
    ensures { result ≡ kind_of x }
{
    match x {
        1 => Some(Kind::Blob),
        2 => Some(Kind::Tree),
        3 => Some(Kind::Commit),
        _ => None,
    }
}

fn kind_field(cursor: &mut Cursor<'_>) -> Result<Kind, ItemFault>
    ensures { MatchResult result
        (λ kind. kind_field cursor.old ≡ Ok (kind, cursor.new))
        (λ stop. IsStop stop (kind_field cursor.old)) }
{
    let at = cursor.at();
    let byte = cursor.byte()?;
    match kind_of(byte) {
        None => Err(ItemFault::Broken { at: at as u64 }),
        Some(kind) => Ok(kind),
    }
}

// The object that begins at a place of the item.
fn part_at(item: &[u8], at: usize) -> Result<Part, ItemFault>
    requires { at ≤ length item.now }
    ensures part { MatchResult result
        (λ p. body_field (spot_at at item.now) ≡ Ok (
          record {
            kind = p.kind;
            body = take p.len (drop p.at item.now);
            at = p.at;
          },
          spot_at (p.at + p.len) item.now,
        ))
        (λ stop. IsStop stop (body_field (spot_at at item.now))) }
    ensures within { IfOk result (λ p. p.at + p.len ≤ length item.now) }
{
    let mut cursor = Cursor::new(item, at);
    let kind = kind_field(&mut cursor)?;
    let len = cursor.four_bytes()? as usize;
    let at = cursor.at();
    cursor.field(len)?;
    Ok(Part { kind, at, len })
}

fn put_fault(error: PutError, at: usize) -> ItemFault
    ensures { result ≡ put_fault error at }
{
    match error {
        PutError::NotCanonical => ItemFault::Broken { at: at as u64 },
        PutError::MissingChild { .. } => ItemFault::Broken { at: at as u64 },
        PutError::Collision { name } => ItemFault::Collision { name },
        PutError::OutOfMemory => ItemFault::OutOfMemory,
    }
}

// Takes in an object that isn't held, whatever its size.
fn add(incoming: &mut Incoming, names: &mut IndexSet<Name>, part: Part) -> Result<Name, ItemFault>
    requires within { part.at + part.len ≤ length incoming.old.piece }
    requires named { AreNamed incoming.old.objects names.old.keys }
    ensures added { OnOk result (IsAdded incoming.old.objects part.kind
        (take part.len (drop part.at incoming.old.piece)) incoming.new.objects) }
    ensures name { IfOk result (λ n. n.0 ≡ name part.kind (take part.len (drop part.at incoming.old.piece))) }
    ensures whole { IsStore incoming.new.objects }
    ensures names { IfOk result (λ n. names.new.keys ≡ names.old.keys ++ n ∷ []) }
    ensures piece { incoming.new.piece ≡ incoming.old.piece }
    ensures err { let b = take part.len (drop part.at incoming.old.piece) in IfErr result (λ stop.
        IsStop stop (take_object incoming.old.objects part.kind b part.at
        (refusal incoming.old.objects part.kind b))) }
{
    match incoming.put(part.kind, part.at, part.len) {
        Err(error) => Err(put_fault(error, part.at)),
        Ok(name) => match names.insert(name) {
            Err(_) => Err(ItemFault::OutOfMemory),
            Ok(false) => Err(ItemFault::Broken { at: part.at as u64 }),
            Ok(true) => Ok(name),
        },
    }
}

fn stats_fit(stats: TreeStats) -> bool
    ensures { result ≡ (nat_le stats.files TREE_FILES && nat_le stats.depth TREE_DEPTH
        && nat_le stats.longest TREE_PATH_BYTES) }
{
    stats.files <= TREE_FILES && stats.depth <= TREE_DEPTH && stats.longest <= TREE_PATH_BYTES
}

// Whether a stored tree is within the limits.
fn tree_fits(incoming: &Incoming, name: &Name) -> bool
    ensures { result ≡ (has Kind.Tree incoming.now.objects name.now.0
        && tree_fits (flat incoming.now.objects name.now.0)) }
{
    match incoming.stats(name) {
        None => false,
        Some(stats) => stats_fit(stats),
    }
}

/// The places of a commit's parents, which are in the graph.
pub fn parent_places(
    alloc: Global,
    graph: &Graph,
    commit: &CommitView<'_>,
) -> Result<Vec<u32>, AllocError>
    requires { list_all (λ p. is_some (place_of p graph.now)) commit.now.parents ≡ true }
    ensures places { IfOk result (λ v. v.items ≡ map (place_in graph.now) commit.now.parents) }
    ensures within { IfOk result (λ v. All (λ p. p < length graph.now) v.items) }
{
    let mut places = Vec::new(alloc);
    for i in 0..commit.parent_count() {
        match commit.parent(i) {
            None => unreachable!(),
            Some(parent) => match graph.index_of(&parent) {
                None => unreachable!(),
                Some(place) => places.push(place)?,
            },
        }
    }
    Ok(places)
}

// Enters a commit whose message is within the limit, and says whether it is.
fn enter_commit(
    alloc: Global,
    graph: &mut Graph,
    key: Name,
    body: &[u8],
) -> Result<bool, AllocError>
    requires parents { HasParents graph.old (commit_from body.now) }
    requires named { key.0 ≡ name Kind.Commit body.now }
    requires fresh { place_of key.0 graph.old ≡ None }
    requires room { length graph.old < 2 ^ 30 }
    ensures fits { IfOk result (λ fits. fits ≡ body_fits [] Kind.Commit body.now) }
    ensures rows { IfOk result (λ fits. fits ≡ true → graph.new ≡ with_row graph.old Kind.Commit body.now) }
{
    match CommitView::of(body) {
        None => Ok(false),
        Some(commit) => {
            if commit.message().len() > MESSAGE_BYTES {
                return Ok(false);
            }
            let parents = parent_places(alloc, graph, &commit)?;
            graph.add(key, commit.tree(), parents)?;
            Ok(true)
        }
    }
}

fn more_commits(commits: u32, kind: Kind) -> u32
    requires { commits ≤ 2 ^ 20 }
    ensures { result ≡ more_commits commits kind }
{
    match kind {
        Kind::Blob | Kind::Tree => commits,
        Kind::Commit => commits + 1,
    }
}

fn has_room(objects: usize, commits: u32) -> bool
    ensures { result ≡ (nat_le objects OBJECTS && nat_le commits COMMITS) }
{
    objects <= OBJECTS as usize && commits <= COMMITS
}

impl Objects {
    pub(crate) fn new(alloc: Global) -> Objects
        ensures held { HoldsObjects result }
        ensures objects { result.incoming ≡ record { objects = []; piece = []; is_open = true } }
    {
        Objects {
            incoming: Incoming::new(alloc),
            names: IndexSet::new(alloc),
            graph: Graph::new(alloc),
            blobs: IndexSet::new(alloc),
        }
    }

    // Takes memory for so many objects more at once, as far as what follows a place of the item and the limit allow so
    // many.
    pub(crate) fn reserve(&mut self, at: usize, count: u32) -> Result<(), AllocError>
        requires { at ≤ length self.old.incoming.piece }
        ensures incoming { self.new.incoming ≡ self.old.incoming }
        ensures names { self.new.names.keys ≡ self.old.names.keys }
        ensures graph { self.new.graph ≡ self.old.graph }
        ensures blobs { self.new.blobs ≡ self.old.blobs }
    {
        let most = (self.incoming.piece().len() - at) / LEAST_OBJECT;
        let count = most.min(count.min(OBJECTS) as usize);
        self.incoming.reserve_objects(count)?;
        self.names.reserve(count)
    }

    // Enters the object that arrived last, where it is within the limits of its kind: says whether it is.
    fn enter(&mut self, alloc: Global, part: Part, key: Name) -> Result<bool, AllocError>
        requires within { part.at + part.len ≤ length self.old.incoming.piece }
        requires named { key.0 ≡ name part.kind (take part.len (drop part.at self.old.incoming.piece)) }
        requires arrived { HasArrived self.old.graph (map name_bytes self.old.blobs.keys) part.kind
            (take part.len (drop part.at self.old.incoming.piece)) }
        ensures fits { IfOk result (λ fits. (S : List Object) → self.old.incoming.objects ≡ record {
          kind = part.kind;
          body = take part.len (drop part.at self.old.incoming.piece);
        } ∷ S →
            fits ≡ body_fits S part.kind (take part.len (drop part.at self.old.incoming.piece))) }
        ensures rows { IfOk result (λ fits. fits ≡ true → self.new.graph
            ≡ with_row self.old.graph part.kind (take part.len (drop part.at self.old.incoming.piece))) }
        ensures blobs { IfOk result (λ fits. fits ≡ true → map name_bytes self.new.blobs.keys ≡ with_blob_name
            (map name_bytes self.old.blobs.keys) part.kind (take part.len (drop part.at self.old.incoming.piece))) }
        ensures incoming { self.new.incoming ≡ self.old.incoming }
        ensures names { self.new.names.keys ≡ self.old.names.keys }
    {
        match part.kind {
            Kind::Blob => {
                if part.len > BLOB_BYTES {
                    return Ok(false);
                }
                self.blobs.insert(key)?;
                Ok(true)
            }
            Kind::Tree => Ok(tree_fits(&self.incoming, &key)),
            Kind::Commit => {
                let body = &self.incoming.piece()[part.at..part.at + part.len];
                enter_commit(alloc, &mut self.graph, key, body)
            }
        }
    }
    // Takes in one object more, whose body stands in the item.
    fn take(&mut self, alloc: Global, part: Part) -> Result<(), ItemFault>
        requires within { part.at + part.len ≤ length self.old.incoming.piece }
        requires held { HoldsObjects self.old }
        ensures object { let S = self.old.incoming.objects in
            let b = take part.len (drop part.at self.old.incoming.piece) in MatchResult result
            (λ _. take_object S part.kind b part.at (refusal S part.kind b) ≡ Ok self.new.incoming.objects)
            (λ stop. IsStop stop (take_object S part.kind b part.at (refusal S part.kind b))) }
        ensures held { OnOk result (HoldsObjects self.new) }
        ensures piece { self.new.incoming.piece ≡ self.old.incoming.piece }
        ensures commits { OnOk result ((n : List ℕ) → has Kind.Commit self.old.incoming.objects n ≡ true →
            has Kind.Commit self.new.incoming.objects n ≡ true) }
    {
        let key = add(&mut self.incoming, &mut self.names, part)?;
        if !has_room(self.names.len(), more_commits(self.graph.len(), part.kind)) {
            return Err(ItemFault::Broken { at: part.at as u64 });
        }
        if !self.enter(alloc, part, key)? {
            return Err(ItemFault::Broken { at: part.at as u64 });
        }
        Ok(())
    }

    // Reads the object that begins at a place of the item, and says where it ends.
    fn read_one(&mut self, alloc: Global, at: usize) -> Result<usize, ItemFault>
        requires within { at ≤ length self.old.incoming.piece }
        requires held { HoldsObjects self.old }
        ensures object { MatchResult result
            (λ end. object_field self.old.incoming.objects (spot_at at self.old.incoming.piece)
            ≡ Ok (self.new.incoming.objects, spot_at end self.old.incoming.piece))
            (λ stop. IsStop stop (object_field self.old.incoming.objects (spot_at at self.old.incoming.piece))) }
        ensures within { IfOk result (λ end. end ≤ length self.old.incoming.piece) }
        ensures held { OnOk result (HoldsObjects self.new) }
        ensures piece { self.new.incoming.piece ≡ self.old.incoming.piece }
        ensures commits { OnOk result ((n : List ℕ) → has Kind.Commit self.old.incoming.objects n ≡ true →
            has Kind.Commit self.new.incoming.objects n ≡ true) }
    {
        let part = part_at(self.incoming.piece(), at)?;
        self.take(alloc, part)?;
        Ok(part.at + part.len)
    }

    /// Reads the objects of an item from a place on, so many as it says, and says where they end. Each is named once.
    pub(crate) fn read(&mut self, alloc: Global, at: usize, count: u32) -> Result<usize, ItemFault>
        requires within { at ≤ length self.old.incoming.piece }
        requires held { HoldsObjects self.old }
        ensures objects { MatchResult result
            (λ end. objects_field count self.old.incoming.objects (spot_at at self.old.incoming.piece)
            ≡ Ok (self.new.incoming.objects, spot_at end self.old.incoming.piece))
            (λ stop. IsStop stop (objects_field count self.old.incoming.objects
            (spot_at at self.old.incoming.piece))) }
        ensures within { IfOk result (λ end. end ≤ length self.old.incoming.piece) }
        ensures held { OnOk result (HoldsObjects self.new) }
        ensures piece { self.new.incoming.piece ≡ self.old.incoming.piece }
        ensures commits { OnOk result ((n : List ℕ) → has Kind.Commit self.old.incoming.objects n ≡ true →
            has Kind.Commit self.new.incoming.objects n ≡ true) }
    {
        let mut end = at;
        for i in 0..count {
            match self.read_one(alloc, end) {
                Err(fault) => return Err(fault),
                Ok(next) => end = next,
            }
        }
        Ok(end)
    }
}
