// The law of memos that other contracts cite.
ghost use Rattle.filter_apply.specs.Truth.{StaysTrueLaw};

/// A memo that is true for a list of tables stays so when something is shown by one of them.
pub fn stays_true_law()
    ensures { StaysTrueLaw }
{}
