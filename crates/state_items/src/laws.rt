// Laws of the definitions.
ghost use Rattle.state_items.specs.Appending.{AppendLaw};
ghost use Rattle.state_items.specs.Canonical.{CanonicalLaw};
ghost use Rattle.state_items.specs.Hands.{HandLaw};
ghost use Rattle.state_items.specs.Imported.{ChangeLaw, ImportedLaw};
ghost use Rattle.state_items.specs.KeptLaws.{KeptLaw, Projecting};
ghost use Rattle.state_items.specs.ReadHeld.{ReadLaw};
ghost use Rattle.state_items.specs.Stored.{StoredLaw};
ghost use Rattle.state_items.specs.TaggedLaws.{OldItemsLaw, TaggedChangeLaw, TaggedLaw};

/// An addition that passes no limit is read back behind the items, and no items are Kept.
pub fn append_law()
    ensures { AppendLaw }
{}

/// Blobs and commits that are brought are in the new state, each once, and all else stays.
pub fn imported_law()
    ensures { ImportedLaw }
{}

/// A change that brings whole commits, within the limits of objects, may be added.
pub fn change_law()
    ensures { ChangeLaw }
{}

/// Kept items stay Kept behind each addition.
pub fn kept_law()
    ensures { (project : Projecting) → KeptLaw project }
{}

/// Whatever whole commits of known blobs bring is in hand.
pub fn hand_law()
    ensures { HandLaw }
{}

/// What items hold is sound, and of items that are bytes the objects are a store.
pub fn read_law()
    ensures { ReadLaw }
{}

/// A store that has blobs and commits has each object that they bring, and no two of these have one name.
pub fn stored_law()
    ensures { StoredLaw }
{}

/// A canonical text is that of a sound filter, and a sound filter is printed as its canonical text.
pub fn canonical_law()
    ensures { CanonicalLaw }
{}

/// Items without tags hold none.
pub fn old_items_law()
    ensures { OldItemsLaw }
{}

/// For all but the tags a change with tags means what it means without them; and each tag that it brings is the one of
/// its name then, and the others stay.
pub fn tagged_law()
    ensures { TaggedLaw }
{}

/// A change that brings whole commits and tags of commits that are there may be added.
pub fn tagged_change_law()
    ensures { TaggedChangeLaw }
{}
