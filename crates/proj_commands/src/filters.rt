// The sound filter of a text.
ghost use Rattle.std.specs.Prelude.{◌≡◌, ◌⊎◌, Ok, Err, IfOk, IfErr};
ghost use Rattle.filter_text.specs.Shapes.{shape};
ghost use Rattle.workspace.specs.Laws.{IsUsable};
ghost use Rattle.proj_commands.specs.Filters.{sound};

use filter_routes::check;
use filter_text::{Filter, parse};
use proj_words::Outcome;
use std::alloc::Global;

/// The sound filter of a text, or why it is none.
#[tactic(auto, using(crate::proofs::FilterFaults::faultless), unfolding(crate::specs::Filters::sound))]
pub fn sound_filter(alloc: Global, text: &[u8]) -> Result<Filter, Outcome>
    ensures sound { IfOk result (λ f. sound text.now ≡ Ok (shape f)) }
    ensures usable { IfOk result (λ f. IsUsable (shape f)) }
    ensures err { IfErr result (λ e. (e ≡ Outcome.OutOfMemory) ⊎ (sound text.now ≡ Err e)) }
{
    let filter = parse(alloc, text)?;
    check(alloc, &filter)?;
    Ok(filter)
}
