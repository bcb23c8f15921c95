// Laws of the definitions.
ghost use Rattle.incremental_export.specs.Changes.{ChangingLaw};
ghost use Rattle.incremental_export.specs.Histories.{StoredNewLaw};
ghost use Rattle.incremental_export.specs.Laws.{ReadUponLaw};
ghost use Rattle.incremental_export.specs.TagLaws.{TaggedUponLaw};
ghost use Rattle.incremental_export.specs.Unreached.{PartingLaw, StoredUnreachedLaw};

/// The changes from a tree to another one turn it into that.
pub fn changing_law()
    ensures { ChangingLaw }
{}

/// What is written of commits is read again upon what was there, as these very commits, in order and under the same
/// names, with the ref at the last one: where no module has the zero name, the text has at most 2^28 bytes, and reading
/// meets no limit.
pub fn read_upon_law()
    ensures { ReadUponLaw }
{}

/// What is written of commits, with annotated tags of them behind it, is read again upon what was there, as the same
/// commits, ref and tags: where no module and no tagged commit has the zero name, the text has at most 2^28 bytes, and
/// reading meets no limit.
pub fn tagged_upon_law()
    ensures { TaggedUponLaw }
{}

/// Commits of a store that `write_changes` may be given can be read again upon a base that has their other parents, and
/// have the names that it was given: where none stands in front of its parents, and no parent's name is all zeros.
pub fn stored_new_law()
    ensures { StoredNewLaw }
{}

/// Each commit of a graph is reached from given ones, or isn't.
pub fn parting_law()
    ensures { PartingLaw }
{}

/// Of a store's commits with parents first `unreached` gives those of their graph that aren't reached.
pub fn stored_unreached_law()
    ensures { StoredUnreachedLaw }
{}
