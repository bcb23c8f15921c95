// What a policy keeps to.
ghost use Rattle.proj_gate.specs.Laws.{DecisionLaw, ReadingLaw};

/// A text that is too long has the bad line 0, and the bad line of another one is the first that is neither idle nor a
/// rule. A text that is read is short enough, and has none.
pub fn reading_law()
    ensures { ReadingLaw }
{}

/// The first rule that speaks of an act decides it. Where none does it is denied, by the number 0.
pub fn decision_law()
    ensures { DecisionLaw }
{}
