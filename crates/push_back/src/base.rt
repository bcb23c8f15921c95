// What a pushed stream stands upon.
ghost use Rattle.std.specs.Prelude.{◌≡◌, ◌++◌, true, IfOk, IfSome, OnOk};
ghost use Rattle.git_objects.specs.declared.kind.Kind.TheVariants.{Tree};
ghost use Rattle.object_store.specs.Objects.{has};
ghost use Rattle.object_store.specs.StoredSnapshots.{IsTreeOf};
ghost use Rattle.object_store.specs.Unfolding.{flat};
ghost use Rattle.push_back.specs.Grounds.{AreBlobsOf, IsGroundIn, blob_names, blobs_of, commits_of, ground_in};
ghost use Rattle.push_back.specs.Grounds.{push_base_in, refs_of};

use fast_import::{Base, Blobs};
use git_objects::{Mode, Name};
use object_store::{Store, store_law};
use path_names::RefName;
use path_trees::{Leaf, Walk};
use std::alloc::{AllocError, Global};
use std::cmp::Ordering;
use std::marker::Model;

/// What a pushed stream stands upon: the projection, where there is one, with the tree that is shown and its blobs.
pub struct PushBase {
    refname: RefName,
    from: Option<Name>,
    shown: Name,
    blobs: Blobs,
}

// Written out, so that to drop one is a call: a derived drop would stand in full in each function that drops one, and
// in its proof.
impl Drop for PushBase {
    fn drop(self) {
        let PushBase {
            refname: _,
            from: _,
            shown: _,
            blobs: _,
        } = self;
    }
}

impl Model for PushBase {
    ghost use Rattle.push_back.specs.Grounds.{Ground};

    ghost Value = { Ground };

    ghost view = { λ b. record {
      refname = b.refname;
      from = b.from;
      shown = b.shown;
      blobs = b.blobs;
    } };
}

impl PushBase {
    /// The base of a push to a ref, upon the projected commit and its tree, or upon an empty one where there is none.
    /// The tree is walked for its blobs.
    pub fn new(
        alloc: Global,
        store: &Store,
        refname: RefName,
        from: Option<Name>,
        shown: Name,
    ) -> Result<PushBase, AllocError>
        requires { has Tree store.now shown.0 ≡ true }
        ensures refname { IfOk result (λ base. base.refname ≡ refname) }
        ensures from { IfOk result (λ base. base.from ≡ from) }
        ensures shown { IfOk result (λ base. base.shown ≡ shown) }
        ensures same { IfOk result (λ base. ground_in store.now base ≡ push_base_in store.now base) }
        ensures there { IfOk result (λ base. IfSome from (λ n. IsTreeOf store.now n.0 shown.0) →
            IsGroundIn store.now base) }
    {
        let blobs = tree_blobs(alloc, store, shown)?;
        Ok(PushBase {
            refname,
            from,
            shown,
            blobs,
        })
    }

    // The ref that is pushed to.
    pub(crate) fn ref_name(&self) -> &RefName
        ensures { result.now ≡ self.now.refname }
    {
        &self.refname
    }

    // The projected commit, where there is one.
    pub(crate) fn projected(&self) -> Option<Name>
        ensures { result ≡ self.now.from }
    {
        self.from
    }
}

impl Base for PushBase {
    ghost commits = { commits_of };

    ghost refs = { refs_of };

    ghost blobs = { blobs_of };

    fn tree_of(&self, commit: &Name) -> Option<Name> {
        match self.from {
            Some(name) if name == *commit => Some(self.shown),
            _ => None,
        }
    }

    fn branch(&self, refname: &RefName) -> Option<Name> {
        match refname.cmp(&self.refname) {
            Ordering::Equal => self.from,
            _ => None,
        }
    }

    fn knows_blob(&self, blob: &Name) -> bool {
        self.blobs.has(blob)
    }
}

// The blobs of a tree in path order, as often as they stand there.
fn tree_blobs(alloc: Global, store: &Store, tree: Name) -> Result<Blobs, AllocError>
    requires { has Tree store.now tree.0 ≡ true }
    ensures { IfOk result (AreBlobsOf store.now (flat store.now tree.0)) }
{
    store_law(store);
    let mut blobs = Blobs::new(alloc);
    let mut walk = Walk::new(alloc, store, tree)?;
    'leaves: while walk.next()? {
        add_leaf(&mut blobs, walk.leaf())?;
    }
    Ok(blobs)
}

// Adds the blob of a leaf. A module has none.
fn add_leaf(blobs: &mut Blobs, leaf: Leaf) -> Result<(), AllocError>
    ensures { OnOk result (blobs.new ≡ blobs.old ++ blob_names leaf.mode leaf.name) }
{
    if leaf.mode == Mode::Module {
        return Ok(());
    }
    blobs.add(leaf.name)
}
