// What accepted pushes keep to.
ghost use Rattle.push_laws.specs.Alike.{AlikeLaw};
ghost use Rattle.push_laws.specs.Given.{BroughtLaw, GivenLaw};
ghost use Rattle.push_laws.specs.PushLaws.{AdmissibleLaw, BackLaw, ChainLaw, ElsewhereLaw, MadeLaw};
ghost use Rattle.push_laws.specs.PushLaws.{NextLaw, ProjectedLaw, PushedLaw, StepLaw, StepsLaw};

/// A tree that was laid asks for the filter by which it was laid, as long as that filter shows the workspace's file
/// at the place where the filter before it does, or both hide it.
pub fn next_law()
    ensures { NextLaw }
{}

/// An accepted commit makes a tree of which the filter shows exactly what was pushed. What the filter hides of it
/// afterwards, and each file that it hid before, is as it was in the tree below.
pub fn step_law()
    ensures { StepLaw }
{}

/// Each commit of an accepted push, of any length, is such a step upon the original tree before it.
pub fn steps_law()
    ensures { StepsLaw }
{}

/// The pairs of an accepted push have exactly the pushed commits, in order.
pub fn pushed_law()
    ensures { PushedLaw }
{}

/// A push of which no commit is refused makes exactly the originals of those pairs.
pub fn made_law()
    ensures { MadeLaw }
{}

/// The commits of a pushed stream, up to its first refusal, are in line upon the projection: each has the commit
/// before it as its only parent, and the first one the projection, or no parent where there is none.
pub fn chain_law()
    ensures { ChainLaw }
{}

/// After an accepted push, also one upon no projection, each original commit is projected from scratch to exactly its
/// pushed commit: the same name and the same tree.
pub fn projected_law()
    ensures { ProjectedLaw }
{}

/// A push that goes back to what was shown at first gives back the first original tree, as long as no original on the
/// way has another workspace file.
pub fn back_law()
    ensures { BackLaw }
{}

/// Original commits that agree with the tree below them on all that another filter shows, and on its workspace file,
/// leave that filter's projection as it was.
pub fn elsewhere_law()
    ensures { ElsewhereLaw }
{}

/// A pushed tree is accepted, and what is laid is the original tree, where it is a change, has a good workspace file,
/// overwrites nothing unseen, has a place for each of its paths, and keeps within the limits of a tree.
pub fn admissible_law()
    ensures { AdmissibleLaw }
{}

/// What a pushed stream of bytes gives, up to its first refusal or to its end, are blobs within the limits and
/// commits of these and of the blobs that are shown, with letters that may stand in a commit.
pub fn given_law()
    ensures { GivenLaw }
{}

/// The originals of an accepted push of such commits may be brought to the graph: they are whole, each behind its
/// parent, within the limits of objects, and of blobs that were given or known.
pub fn brought_law()
    ensures { BroughtLaw }
{}

/// The same commits, pushed upon two original trees of which one tree is shown and which have one workspace file, have
/// the same told of them, unless one is refused by what isn't shown.
pub fn alike_law()
    ensures { AlikeLaw }
{}
