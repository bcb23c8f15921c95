// What accepted pushes with merges keep to.
ghost use Rattle.merge_laws.specs.Given.{MergeBroughtLaw, MergeGivenLaw};
ghost use Rattle.merge_laws.specs.MergeLaws.{AdmissibleMergeLaw, InLineLaw, MergedGraphLaw, MergedLaw, MergeMadeLaw};
ghost use Rattle.merge_laws.specs.MergeLaws.{MergePushedLaw, MergeStepsLaw, ParentsLaw, TiedLaw};
ghost use Rattle.merge_laws.specs.StreamLaws.{CommitLaw, GoesOnLaw, JoinedLaw, NamesLaw, PlainLaw};
ghost use Rattle.merge_laws.specs.StreamLaws.{PushedJoinedLaw, SamePushLaw, TriedLaw, UsualLaw};

/// After an accepted push with merges the graph is a graph still, and each original commit is projected from scratch,
/// by either rule, to exactly its pushed commit: the same name and the same tree.
pub fn merged_law()
    ensures graph { MergedGraphLaw }
    ensures projected { MergedLaw }
{}

/// Each commit of an accepted push is a step upon the original tree before it: the filter shows exactly what was
/// pushed, and what it shows neither before nor after is as it was.
pub fn merge_steps_law()
    ensures { MergeStepsLaw }
{}

/// The pairs of an accepted push have exactly the pushed commits, in order.
pub fn merge_pushed_law()
    ensures { MergePushedLaw }
{}

/// A push of which no commit is refused makes exactly the originals of those pairs.
pub fn merge_made_law()
    ensures { MergeMadeLaw }
{}

/// Each original has the pushed letter, and its first parent is the original before it, that of the first one the ref's
/// commit.
pub fn tied_law()
    ensures { TiedLaw }
{}

/// The projections of an original's parents are the pushed commit's parents, in order.
pub fn parents_law()
    ensures { ParentsLaw }
{}

/// A pushed commit is accepted where its projection would be a commit of its own, its workspace's file is good, it
/// overwrites nothing unseen, has a place for each of its paths, keeps within the limits of a tree, and has at most 16
/// parents.
pub fn admissible_merge_law()
    ensures { AdmissibleMergeLaw }
{}

/// For commits in line without merges the verdict is that of pushes without them.
pub fn in_line_law()
    ensures { InLineLaw }
{}

/// The commits that a pushed stream makes, up to its first refusal, are in line upon the projection, joined with other
/// projections or with commits pushed before, and none has a parent twice.
pub fn joined_law()
    ensures stream { JoinedLaw }
    ensures graph { PushedJoinedLaw }
{}

/// The trees of the further projections don't matter, nor their order: no commit begins with one of them.
pub fn names_law()
    ensures stream { NamesLaw }
    ensures made { TriedLaw }
{}

/// Where a push with merges goes on, so does any replay of the same commands. Of a commit upon the chain's end it
/// refuses no more than a parent that comes twice.
pub fn goes_on_law()
    ensures replay { GoesOnLaw }
    ensures commit { CommitLaw }
{}

/// Upon the same base a stream that merges nothing is replayed as one of a push without merges; and upon the wider base
/// too, where no reset is to digits.
pub fn plain_law()
    ensures same { PlainLaw }
    ensures wider { UsualLaw }
{}

/// So the push of such a stream is what it is without merges.
pub fn same_push_law()
    ensures { SamePushLaw }
{}

/// What a pushed stream of bytes gives, up to its first refusal or to its end, are blobs within the limits and commits
/// of these and of the blobs that are shown, with letters that may stand in a commit.
pub fn merge_given_law()
    ensures { MergeGivenLaw }
{}

/// The originals of an accepted push with merges may be brought to the graph: they are whole, each behind its parents,
/// within the limits of objects, and of blobs that were given or known.
pub fn merge_brought_law()
    ensures { MergeBroughtLaw }
{}
