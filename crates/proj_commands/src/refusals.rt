// The outcomes of what lower crates refuse.
ghost use Rattle.std.specs.Prelude.{◌≡◌};
ghost use Rattle.proj_commands.specs.Pushing.{fault_outcome, merge_outcome};
ghost use Rattle.proj_commands.specs.declared.pushing.Manner.TheVariants.{InLine};
ghost use Rattle.proj_commands.specs.Refusals.{apply_outcome, certificate_outcome, commit_outcome, replay_outcome};

use fast_import::ReplayError;
use filter_apply::ApplyError;
use merge_push::MergeFault;
use proj_audit::VerifyFault;
use proj_words::Outcome;
use push_back::PushFault;
use repo_ground::CommitError;

/// Why nothing was committed.
pub(crate) fn commit_outcome(error: CommitError) -> Outcome
    ensures { result ≡ commit_outcome error }
{
    match error {
        CommitError::StoreFault => Outcome::StoreFault,
        CommitError::Limit { which } => Outcome::Limit { which, at: None },
        CommitError::OutOfMemory => Outcome::OutOfMemory,
    }
}

/// Why a certificate isn't accepted.
pub(crate) fn certificate_outcome(fault: VerifyFault) -> Outcome
    ensures { result ≡ certificate_outcome fault }
{
    match fault {
        VerifyFault::Syntax { at } => Outcome::Syntax { at },
        VerifyFault::NotProved { name } => Outcome::NotProved { name },
        VerifyFault::OutOfMemory => Outcome::OutOfMemory,
    }
}

/// Why nothing is shown.
pub fn apply_outcome(error: ApplyError) -> Outcome
    ensures { result ≡ apply_outcome error }
{
    match error {
        ApplyError::Collision { name } => Outcome::Collision { name },
        ApplyError::OutOfMemory => Outcome::OutOfMemory,
    }
}

/// Why a stream isn't replayed.
pub(crate) fn replay_outcome(error: ReplayError) -> Outcome
    ensures { result ≡ replay_outcome error }
{
    match error {
        ReplayError::ReadFault => Outcome::ReadFault,
        ReplayError::Stream(fault) => Outcome::from(fault),
    }
}

/// Why a push brings nothing.
pub(crate) fn fault_outcome(fault: PushFault) -> Outcome
    ensures { result ≡ fault_outcome InLine fault }
{
    match fault {
        PushFault::ReadFault => Outcome::ReadFault,
        PushFault::Stream(fault) => Outcome::from(fault),
        PushFault::OtherRef { at } => Outcome::OtherRef { at },
        PushFault::NotAtHead { expected, got } => Outcome::NotAtHead { expected, got },
        PushFault::MergePushed { n } => Outcome::MergePushed { n },
        PushFault::NoChange { n } => Outcome::NoChange { n },
        PushFault::BadWorkspace { n } => Outcome::BadWorkspace { n },
        PushFault::Unseen { n, path } => Outcome::Unseen { n, path },
        PushFault::NotHeld { n, path } => Outcome::NotHeld { n, path },
        PushFault::Blocked { n, path, by } => Outcome::Blocked { n, path, by },
        PushFault::TreeLimit { n: _, which } => Outcome::Limit { which, at: None },
        PushFault::Collision { name } => Outcome::Collision { name },
        PushFault::OutOfMemory => Outcome::OutOfMemory,
    }
}

/// Why a push that may merge brings nothing.
pub(crate) fn merge_outcome(fault: MergeFault) -> Outcome
    ensures { result ≡ merge_outcome fault }
{
    match fault {
        MergeFault::ReadFault => Outcome::ReadFault,
        MergeFault::Stream(fault) => Outcome::from(fault),
        MergeFault::OtherRef { at } => Outcome::OtherRef { at },
        MergeFault::NotAtHead { expected, got } => Outcome::NotAtHead { expected, got },
        MergeFault::RepeatedParent { n } => Outcome::RepeatedParent { n },
        MergeFault::NoChange { n } => Outcome::NoChange { n },
        MergeFault::BadWorkspace { n } => Outcome::BadWorkspace { n },
        MergeFault::Unseen { n, path } => Outcome::Unseen { n, path },
        MergeFault::NotHeld { n, path } => Outcome::NotHeld { n, path },
        MergeFault::Blocked { n, path, by } => Outcome::Blocked { n, path, by },
        MergeFault::TreeLimit { n: _, which } => Outcome::Limit { which, at: None },
        MergeFault::Collision { name } => Outcome::Collision { name },
        MergeFault::OutOfMemory => Outcome::OutOfMemory,
    }
}
