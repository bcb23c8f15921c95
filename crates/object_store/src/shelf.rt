// Bodies in one arena, with their places: what a store reads when it looks up or judges an object.
ghost use Rattle.std.specs.Prelude.{◌≡◌, ◌+◌, ◌≤◌, length, IfOk, IfSome, MatchResult, None};
ghost use Rattle.std.specs.Prelude.{true, is_some, map, Some};
ghost use Rattle.std.specs.Option.{option_map};
ghost use Rattle.std.specs.Result.{result_err};
ghost use Rattle.git_objects.specs.Names.{name};
ghost use Rattle.git_objects.specs.Parts.{name_bytes};
ghost use Rattle.git_objects.specs.Bodies.{is_listing, tree_entries};
ghost use Rattle.git_objects.specs.CommitBodies.{commit_from};
ghost use Rattle.git_objects.specs.Views.{entry_value};
ghost use Rattle.git_objects.specs.Paths.{Bytes};
ghost use Rattle.git_objects.specs.declared.kind.Kind.TheVariants.{Blob, Tree};
ghost use Rattle.object_store.specs.Objects.{body_of, find_named, has, has_child, missing_entry, missing_of_commit};
ghost use Rattle.object_store.specs.Objects.{IsStore};
ghost use Rattle.object_store.specs.Puts.{if_missing, of_body, of_commit, of_tree, refusal, same_object};
ghost use Rattle.object_store.specs.Errors.{object_value, refusal_told, error_of};
ghost use Rattle.object_store.specs.Places.{is_full_tree, placed};
ghost use Rattle.object_store.specs.Sizes.{leaf_sizes, sizes, stats_of};
ghost use Rattle.object_store.specs.Unfolding.{below, body_flat, entry_flat, flat, joined};
ghost use Rattle.object_store.specs.Judgements.{IsJudged, IsTreeOf};

use crate::tree_stats::{NO_PATH, leaf_stats, stats_below, stats_joined, stats_swapped};
use crate::{ObjectRef, PutError, TreeStats};
use git_objects::{CommitView, EntryView, Kind, Mode, Name, TreeView, name_of};
use indexmap::IndexMap;
use std::marker::Model;

// Where an object's body stands in the arena, and how large its tree is. The sizes of a blob or a commit are those of a
// tree without a path.
#[derive(Clone, Copy)]
pub(crate) struct Place {
    pub(crate) kind: Kind,
    pub(crate) at: usize,
    pub(crate) len: usize,
    pub(crate) stats: TreeStats,
}

// The object at a place.
fn lend(arena: &[u8], place: Place) -> ObjectRef<'_>
    requires { place.at + place.len ≤ length arena.now }
    ensures { object_value result ≡ placed arena.now place }
{
    ObjectRef {
        kind: place.kind,
        body: &arena[place.at..place.at + place.len],
    }
}

// Whether a tree with a body stands at a place.
fn is_full_tree(place: Place) -> bool
    ensures { result ≡ is_full_tree place }
{
    place.kind == Kind::Tree && place.len != 0
}

// The fault of a child that is not held.
fn missing_child(name: Option<Name>) -> Option<PutError>
    ensures { result ≡ option_map error_of (if_missing (option_map name_bytes name) None) }
{
    match name {
        None => None,
        Some(name) => Some(PutError::MissingChild { name }),
    }
}

/// What is said of a body that may be taken in.
#[derive(Clone, Copy)]
pub(crate) enum Judged {
    /// The object is held already.
    Held { name: Name },
    /// It isn't, and it stands for a tree of these sizes.
    New { name: Name, stats: TreeStats },
}

/// The arena and the places, lent.
#[derive(Drop)]
pub(crate) struct Shelf<'a> {
    pub(crate) arena: &'a [u8],
    pub(crate) places: &'a IndexMap<Name, Place>,
}

impl<'a> Model for Shelf<'a> {
    ghost use Rattle.std.specs.Prelude.{List};
    ghost use Rattle.object_store.specs.Objects.{Object};
    ghost use Rattle.object_store.specs.Places.{placed_objects, HoldsStore};

    ghost Value = { List Object };

    ghost view = { λ s. placed_objects s.arena.now s.places.now.entries };

    ghost invariant = { λ s. HoldsStore s.arena.now s.places.now.entries };
}

impl<'a> Shelf<'a> {
    /// The object of that name. Needs no memory.
    pub(crate) fn get(&self, name: &Name) -> Option<ObjectRef<'a>>
        ensures object { option_map object_value result ≡ find_named self.now name.now.0 }
        ensures store { IsStore self.now }
    {
        match self.places.get(name) {
            None => None,
            Some(place) => Some(lend(self.arena, *place)),
        }
    }

    /// What `get` gives. The object that arrived with this number is looked at first, and the number of the one behind
    /// the object that is found is left there.
    pub(crate) fn get_near(&self, near: &mut usize, name: &Name) -> Option<ObjectRef<'a>>
        ensures { option_map object_value result ≡ find_named self.now name.now.0 }
    {
        if let Some((key, place)) = self.places.get_index(*near) {
            if key == name {
                *near = near.wrapping_add(1);
                return Some(lend(self.arena, *place));
            }
        }
        match self.places.get_full(name) {
            None => None,
            Some((number, _, place)) => {
                *near = number.wrapping_add(1);
                Some(lend(self.arena, *place))
            }
        }
    }

    /// How large the tree of that name is. It was worked out when the tree was put, and takes no memory.
    pub(crate) fn stats(&self, name: &Name) -> Option<TreeStats>
        ensures { result ≡ stats_of self.now name.now.0 }
    {
        match self.places.get(name) {
            None => None,
            Some(place) => {
                if place.kind == Kind::Tree {
                    Some(place.stats)
                } else {
                    None
                }
            }
        }
    }

    /// Whether an object of that kind has that name. Needs no memory.
    pub(crate) fn has(&self, kind: Kind, name: &Name) -> bool
        ensures { result ≡ has kind self.now name.now.0 }
    {
        match self.get(name) {
            None => false,
            Some(object) => object.kind == kind,
        }
    }

    // The sizes of a directory behind its component. None: no tree with a body is held under the name.
    #[inline(always)]
    fn dir_stats(&self, component: &[u8], name: &Name) -> Option<TreeStats>
        ensures held { is_some result ≡ has_child self.now Mode.Dir name.now.0 }
        ensures sizes { IfSome result (λ s. s ≡ sizes (below component.now (flat self.now name.now.0))) }
    {
        match self.places.get(name) {
            None => None,
            Some(place) => {
                if is_full_tree(*place) {
                    Some(stats_below(component, place.stats))
                } else {
                    None
                }
            }
        }
    }

    fn blob_stats(&self, component: &[u8], name: &Name) -> Option<TreeStats>
        ensures held { is_some result ≡ has Blob self.now name.now.0 }
        ensures sizes { IfSome result (λ s. s ≡ leaf_sizes (length component.now)) }
    {
        if self.has(Kind::Blob, name) {
            Some(leaf_stats(component))
        } else {
            None
        }
    }

    // The sizes of what an entry adds. None: its child is not held.
    #[inline(always)]
    fn entry_stats(&self, entry: &EntryView<'_>) -> Option<TreeStats>
        ensures held { is_some result ≡ has_child self.now entry.now.mode entry.now.name.0 }
        ensures sizes { IfSome result (λ s. s ≡ sizes (entry_flat self.now (entry_value entry.now))) }
    {
        match entry.mode {
            Mode::File | Mode::Exec | Mode::Link => self.blob_stats(entry.component, &entry.name),
            Mode::Module => Some(leaf_stats(entry.component)),
            Mode::Dir => self.dir_stats(entry.component, &entry.name),
        }
    }

    // The sizes of what an entry adds whose child is held.
    #[inline(always)]
    fn held_entry_stats(&self, entry: &EntryView<'_>) -> TreeStats
        requires { has_child self.now entry.now.mode entry.now.name.0 ≡ true }
        ensures { result ≡ sizes (entry_flat self.now (entry_value entry.now)) }
    {
        match entry.mode {
            Mode::File | Mode::Exec | Mode::Link | Mode::Module => leaf_stats(entry.component),
            Mode::Dir => match self.dir_stats(entry.component, &entry.name) {
                Some(stats) => stats,
                None => unreachable!(),
            },
        }
    }

    // Whether the object of that name has that kind and body. None: there is none.
    fn is_same(&self, name: &Name, kind: Kind, body: &[u8]) -> Option<bool>
        ensures { result ≡ option_map (same_object kind body.now) (find_named self.now name.now.0) }
    {
        match self.get(name) {
            None => None,
            Some(object) => Some(object.kind == kind && object.body == body),
        }
    }

    // The sizes of a tree with these entries, or the first child that is not held.
    fn entries_stats(&self, mut entries: TreeView<'_>) -> Result<TreeStats, PutError>
        ensures fault { result_err result
            ≡ option_map error_of (if_missing (missing_entry self.now entries.entry) None) }
        ensures sizes { IfOk result
            (λ s. s ≡ sizes (joined (body_of Blob self.now) (flat self.now) entries.entry)) }
    {
        let mut stats = NO_PATH;
        'entries: while let Some(entry) = entries.next() {
            let Some(part) = self.entry_stats(&entry) else {
                return Err(PutError::MissingChild { name: entry.name });
            };
            stats = stats_joined(stats, part);
        }
        Ok(stats)
    }

    // The sizes of a tree with these entries, whose children are held.
    fn held_entries_stats(&self, mut entries: TreeView<'_>) -> TreeStats
        requires { missing_entry self.now entries ≡ None }
        ensures { result ≡ sizes (joined (body_of Blob self.now) (flat self.now) entries.entry) }
    {
        let mut stats = NO_PATH;
        'children: while let Some(entry) = entries.next() {
            let part = self.held_entry_stats(&entry);
            stats = stats_joined(stats, part);
        }
        stats
    }

    // The sizes of a tree with these entries, whose children are held.
    fn listed_stats(&self, entries: &[EntryView<'_>]) -> TreeStats
        requires { missing_entry self.now (map entry_value entries.now) ≡ None }
        ensures { result ≡ sizes (joined (body_of Blob self.now) (flat self.now) (map entry_value entries.now)) }
    {
        let mut total = NO_PATH;
        for entry in entries {
            let part = self.held_entry_stats(entry);
            total = stats_joined(total, part);
        }
        total
    }

    // The sizes of a tree with that body, or what is wrong with it: that it is none, or a child that is not held.
    fn tree_stats(&self, body: &[u8]) -> Result<TreeStats, PutError>
        ensures fault { result_err result ≡ option_map error_of (of_tree self.now (tree_entries body.now) None) }
        ensures sizes { IfOk result (λ s. s ≡ sizes (body_flat self.now Kind.Tree body.now)) }
    {
        match TreeView::of(body) {
            None => Err(PutError::NotCanonical),
            Some(entries) => self.entries_stats(entries),
        }
    }

    // The sizes of a tree whose body lists what these entries list, some of them with other names; its children are
    // held. None where it lists anything else, where a child is not held, or where the sizes can't be told so.
    fn swapped_stats(
        &self,
        mut entries: TreeView<'_>,
        total: TreeStats,
        body: &[u8],
    ) -> Option<TreeStats>
        requires listing { is_listing entries ≡ true }
        requires held { missing_entry self.now entries ≡ None }
        requires total { total ≡ sizes (joined (body_of Blob self.now) (flat self.now) entries) }
        ensures { IfSome result (IsTreeOf self.now body.now) }
    {
        let mut less = NO_PATH;
        let mut more = NO_PATH;
        let mut rest = body;
        'entries: while let Some((entry, name, behind)) = entries.next_beside(rest) {
            if name != entry.name {
                let other = EntryView {
                    mode: entry.mode,
                    component: entry.component,
                    name,
                };
                let came = self.entry_stats(&other)?;
                more = stats_joined(more, came);
                let went = self.held_entry_stats(&entry);
                less = stats_joined(less, went);
            }
            rest = behind;
        }
        if !entries.bytes().is_empty() || !rest.is_empty() {
            return None;
        }
        stats_swapped(total, less, more)
    }

    // The body and the sizes of the tree that arrived with that number, where that is a tree of so many bytes.
    #[inline(always)]
    fn tree_at(&self, number: usize, len: usize) -> Option<(&'a [u8], TreeStats)>
        ensures tree { IfSome result (λ t. (n : Bytes) × (has Tree self.now n ≡ true)
            × (body_of Tree self.now n ≡ t.0.now) × (t.1 ≡ sizes (flat self.now n))) }
        ensures store { IsStore self.now }
    {
        let (_, place) = self.places.get_index(number)?;
        if place.kind != Kind::Tree || place.len != len {
            return None;
        }
        let tree = lend(self.arena, *place);
        Some((tree.body, place.stats))
    }

    // The sizes of a tree with that body, where the tree that arrived with that number lists the same but for names.
    fn stats_beside(&self, near: usize, body: &[u8]) -> Option<TreeStats>
        ensures { IfSome result (IsTreeOf self.now body.now) }
    {
        let (other, total) = self.tree_at(near, body.len())?;
        self.swapped_stats(TreeView::of_canonical(other), total, body)
    }

    // The first of a commit's tree and parents that is not held.
    fn missing_of_commit(&self, commit: &CommitView<'_>) -> Option<Name>
        ensures { option_map name_bytes result ≡ missing_of_commit self.now commit.now }
    {
        let tree = commit.tree();
        if !self.has(Kind::Tree, &tree) {
            return Some(tree);
        }
        'parents: for i in 0..commit.parent_count() {
            let Some(parent) = commit.parent(i) else {
                return None;
            };
            if !self.has(Kind::Commit, &parent) {
                return Some(parent);
            }
        }
        None
    }

    // What is wrong with a commit's body: that it is none, or a child that is not held.
    fn commit_fault(&self, body: &[u8]) -> Option<PutError>
        ensures { result ≡ option_map error_of (of_commit self.now (commit_from body.now) None) }
    {
        match CommitView::of(body) {
            None => Some(PutError::NotCanonical),
            Some(commit) => missing_child(self.missing_of_commit(&commit)),
        }
    }

    // The sizes of what a body of that kind stands for, or what is wrong with it.
    fn body_stats(&self, kind: Kind, body: &[u8]) -> Result<TreeStats, PutError>
        ensures fault { result_err result ≡ option_map error_of (of_body self.now kind body.now None) }
        ensures sizes { IfOk result (λ s. s ≡ sizes (body_flat self.now kind body.now)) }
    {
        match kind {
            Kind::Blob => Ok(NO_PATH),
            Kind::Tree => self.tree_stats(body),
            Kind::Commit => match self.commit_fault(body) {
                None => Ok(NO_PATH),
                Some(fault) => Err(fault),
            },
        }
    }

    // What `body_stats` gives, faster where the tree with the number `near` lists the same but for
    // names.
    fn body_stats_beside(&self, kind: Kind, body: &[u8], near: usize) -> Result<TreeStats, PutError>
        ensures fault { result_err result ≡ option_map error_of (of_body self.now kind body.now None) }
        ensures sizes { IfOk result (λ s. s ≡ sizes (body_flat self.now kind body.now)) }
    {
        match kind {
            Kind::Tree => match self.stats_beside(near, body) {
                Some(stats) => Ok(stats),
                None => self.body_stats(Kind::Tree, body),
            },
            Kind::Blob | Kind::Commit => self.body_stats(kind, body),
        }
    }

    // What is said of a body of that kind whose children are held, with the sizes of what it stands for.
    fn judge_sized(&self, kind: Kind, body: &[u8], stats: TreeStats) -> Result<Judged, PutError>
        requires body { of_body self.now kind body.now None ≡ None }
        requires stats { stats ≡ sizes (body_flat self.now kind body.now) }
        ensures { MatchResult result
            (IsJudged self.now kind body.now)
            (λ e. refusal self.now kind body.now ≡ refusal_told e) }
    {
        let name = name_of(kind, body);
        match self.is_same(&name, kind, body) {
            Some(true) => Ok(Judged::Held { name }),
            Some(false) => Err(PutError::Collision { name }),
            None => Ok(Judged::New { name, stats }),
        }
    }

    /// What is said of a body of that kind, or why it may not be taken in. Faster where the tree that arrived with the
    /// number `near` lists the same as the body but for names.
    pub(crate) fn judge(&self, kind: Kind, body: &[u8], near: usize) -> Result<Judged, PutError>
        ensures { MatchResult result
            (IsJudged self.now kind body.now)
            (λ e. refusal self.now kind body.now ≡ refusal_told e) }
    {
        let stats = self.body_stats_beside(kind, body, near)?;
        self.judge_sized(kind, body, stats)
    }

    // The sizes of what a body of that kind stands for, whose children are held, as `body_stats_beside` tells them.
    fn fitting_stats(&self, kind: Kind, body: &[u8], near: usize) -> TreeStats
        requires { of_body self.now kind body.now None ≡ None }
        ensures { result ≡ sizes (body_flat self.now kind body.now) }
    {
        match kind {
            Kind::Tree => match self.stats_beside(near, body) {
                Some(stats) => stats,
                None => self.held_entries_stats(TreeView::of_canonical(body)),
            },
            Kind::Blob | Kind::Commit => NO_PATH,
        }
    }

    // What `fitting_stats` gives of a tree's body with these entries.
    fn fitting_listed_stats(&self, entries: &[EntryView<'_>], body: &[u8], near: usize) -> TreeStats
        requires body { of_body self.now Kind.Tree body.now None ≡ None }
        requires entries { tree_entries body.now ≡ Some (map entry_value entries.now) }
        ensures { result ≡ sizes (body_flat self.now Kind.Tree body.now) }
    {
        match self.stats_beside(near, body) {
            Some(stats) => stats,
            None => self.listed_stats(entries),
        }
    }

    /// What is said of a body of which the caller knows that it is one of that kind and that its children are held:
    /// only its name may be refused. The sizes are worked out where no object has the name, faster where the tree that
    /// arrived with the number `near` lists the same but for names.
    pub(crate) fn judge_fitting(
        &self,
        kind: Kind,
        body: &[u8],
        near: usize,
    ) -> Result<Judged, PutError>
        requires { of_body self.now kind body.now None ≡ None }
        ensures { MatchResult result
            (IsJudged self.now kind body.now)
            (λ e. refusal self.now kind body.now ≡ refusal_told e) }
    {
        let name = name_of(kind, body);
        match self.is_same(&name, kind, body) {
            Some(true) => Ok(Judged::Held { name }),
            Some(false) => Err(PutError::Collision { name }),
            None => {
                let stats = self.fitting_stats(kind, body, near);
                Ok(Judged::New { name, stats })
            }
        }
    }

    /// What `judge_fitting` says of a tree's body with these entries, which aren't read from it.
    pub(crate) fn judge_listed(
        &self,
        entries: &[EntryView<'_>],
        body: &[u8],
        near: usize,
    ) -> Result<Judged, PutError>
        requires body { of_body self.now Kind.Tree body.now None ≡ None }
        requires entries { tree_entries body.now ≡ Some (map entry_value entries.now) }
        ensures { MatchResult result
            (IsJudged self.now Kind.Tree body.now)
            (λ e. refusal self.now Kind.Tree body.now ≡ refusal_told e) }
    {
        let name = name_of(Kind::Tree, body);
        match self.is_same(&name, Kind::Tree, body) {
            Some(true) => Ok(Judged::Held { name }),
            Some(false) => Err(PutError::Collision { name }),
            None => {
                let stats = self.fitting_listed_stats(entries, body, near);
                Ok(Judged::New { name, stats })
            }
        }
    }
}
