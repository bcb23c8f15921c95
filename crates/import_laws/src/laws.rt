// Laws of what a stream brings.
ghost use Rattle.state_items.specs.KeptLaws.{Projecting};
ghost use Rattle.import_laws.specs.MadeObjects.{ClashLaw, MadeLaw};
ghost use Rattle.import_laws.specs.Replayed.{ImportKeptLaw, ReplayedLaw};
ghost use Rattle.import_laws.specs.SmallCommands.{ReaderLaw};
ghost use Rattle.import_laws.specs.SmallReplays.{SmallLaw, StreamKeptLaw};
ghost use Rattle.import_laws.specs.StoredReplays.{StoredReplayLaw};

/// A replay of sound commands gives whole commits of known blobs, and refs to commits that are there.
pub fn replayed_law()
    ensures { ReplayedLaw }
{}

/// A stream of sound commands within the limits of objects keeps items Kept, where no two objects have one name.
pub fn import_kept_law()
    ensures { (project : Projecting) → ImportKeptLaw project }
{}

/// Each command that a stream of bytes spells is sound, and within the limits of blobs, messages and paths.
pub fn reader_law()
    ensures { ReaderLaw }
{}

/// What a stream of sound commands gives is made of objects that are held and of those that its commands bring.
pub fn made_law()
    ensures { MadeLaw }
{}

/// Small commands upon commits whose trees are within the limits give blobs and commits within the limits of objects.
pub fn small_law()
    ensures { SmallLaw }
{}

/// A stream of bytes keeps items Kept, where no two objects have one name and the state passes no limit.
pub fn stream_kept_law()
    ensures { (project : Projecting) → StreamKeptLaw project }
{}

/// A clash in a store that a stream has filled is of two objects that are held or that its commands bring.
pub fn clash_law()
    ensures { ClashLaw }
{}

/// A store has what the code's names stand for over it.
pub fn stored_replay_law()
    ensures { StoredReplayLaw }
{}
