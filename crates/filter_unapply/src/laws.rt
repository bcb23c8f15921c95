// Laws of laying that other contracts cite.
ghost use Rattle.filter_unapply.specs.Laws.{BelowLaw, GivenBackLaw, LaidAgainLaw, LayingLaw};
ghost use Rattle.filter_unapply.specs.Laws.{OutcomeLaw, ShownAgainLaw, UnseenLaw};

/// `NotHeld` comes at the first path that no path is shown as, `Blocked` otherwise at the first path from what is laid
/// that is comparable with another and the first such other, and otherwise there is a tree.
pub fn outcome_law()
    ensures { OutcomeLaw }
{}

/// What is laid is a tree, and the lens shows of it exactly what was laid.
pub fn shown_again_law()
    ensures { ShownAgainLaw }
{}

/// What a lens shows of a tree is a tree, and laying it gives the tree back.
pub fn given_back_law()
    ensures { GivenBackLaw }
{}

/// Each path without an image has in what is laid what it had in the tree.
pub fn unseen_law()
    ensures { UnseenLaw }
{}

/// Laying again forgets what was laid first.
pub fn laid_again_law()
    ensures { LaidAgainLaw }
{}

/// The filter `:/a` is a lens, shows the tree that lies below `a`, and is never the cause of `NotHeld`.
pub fn below_law()
    ensures { BelowLaw }
{}

/// What is laid through a sound filter is a tree that is shown again exactly, what is shown is laid to the tree that it
/// was shown of, laying again forgets what was laid first, and what the filter doesn't show stays.
pub fn laying_law()
    ensures { LayingLaw }
{}
