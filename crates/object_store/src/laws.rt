// Laws of the objects that other contracts cite.
ghost use Rattle.object_store.specs.Laws.{GrowingLaw, UnfoldingLaw};
ghost use Rattle.object_store.specs.Objects.{IsStore};

use crate::Store;

/// The flat map of a stored tree is a tree, and the name of that tree is the stored name: so trees with one name have
/// one flat map.
pub fn unfolding_law()
    ensures { UnfoldingLaw }
{}

/// What a stored tree's name stands for stays as it is when more objects are taken in.
pub fn growing_law()
    ensures { GrowingLaw }
{}

/// What each store keeps: names are distinct, bodies are canonical, and children are older. The call does nothing: a
/// proof cites it.
pub fn store_law(store: &Store)
    ensures store { IsStore store.now }
{
    let _arena = &store.arena;
}
