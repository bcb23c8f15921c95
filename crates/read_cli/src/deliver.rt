// The texts of outcomes.
ghost use Rattle.std.specs.Prelude.{◌≡◌, ◌⊎◌};
ghost use Rattle.proj_io.specs.Views.{sink_view};
ghost use Rattle.proj_cli.specs.Answers.{GetsText};
ghost use Rattle.proj_cli.specs.Sent.{TakesMemory};
ghost use Rattle.read_cli.specs.Looks.{read_text};

use proj_cli::{Outcome, finish, tell};
use proj_io::Sink;
use std::alloc::Global;

const USAGE: &[u8] = b"usage: proj_read STORE (refs | log REF FILTER | check REF FILTER | \
    new [--tags | --names] REF FILTER [HAVE ..] | originals REF [HAVE ..])\n";

/// Writes the outcome's text, which for words without a form is the usage of this program. Where there is no memory
/// for it, the outcome is that.
pub fn finish_read<E: Sink>(alloc: Global, outcome: Outcome, err: &mut E) -> Outcome
    ensures outcome { (result ≡ outcome) ⊎ ((result ≡ Outcome.OutOfMemory) × TakesMemory outcome) }
    ensures text { let seen = sink_view E.written E.faults E.refusals in GetsText (seen err.old) (seen err.new)
        (read_text result) }
{
    match outcome {
        Outcome::Usage => {
            tell(USAGE, err);
            Outcome::Usage
        }
        outcome => finish(alloc, outcome, err),
    }
}
