// Laws of the definitions.
ghost use Rattle.fast_export.specs.Histories.{StoredHistoryLaw};
ghost use Rattle.fast_export.specs.Laws.{ReadingAgainLaw};
ghost use Rattle.fast_export.specs.TagLaws.{TaggedAgainLaw};

/// What is exported is read again as the same commits, in order and under the same names, with the ref at the last one:
/// where no module has the zero name, the text has at most 2^28 bytes, and reading meets no limit.
pub fn reading_again_law()
    ensures { ReadingAgainLaw }
{}

/// What is exported with annotated tags behind it is read again as the same commits, ref and tags: where no module and
/// no tagged commit has the zero name, the text has at most 2^28 bytes, and reading meets no limit.
pub fn tagged_again_law()
    ensures { TaggedAgainLaw }
{}

/// Commits of a store that `write_history` may be given are such a history, and have the names that it was given.
pub fn stored_history_law()
    ensures { StoredHistoryLaw }
{}
