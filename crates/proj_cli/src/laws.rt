// What a user can't tell by two calls.
ghost use Rattle.proj_cli.specs.TwoRuns.{TwoRunsLaw};

/// Two calls of `run` for a user upon stores whose states are alike so have one outcome, and write the same.
pub fn two_runs_law()
    ensures { TwoRunsLaw }
{}
