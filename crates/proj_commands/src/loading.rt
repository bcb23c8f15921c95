// Loading what the items of a store hold.
ghost use Rattle.std.specs.Prelude.{◌≡◌, List, Err, Some, IfErr, IfOk, false};
ghost use Rattle.git_objects.specs.Paths.{Bytes};
ghost use Rattle.proj_io.specs.Counts.{Counts};
ghost use Rattle.proj_io.specs.Uses.{IsOnlyRead};
ghost use Rattle.repo_ground.specs.Loads.{IsLoaded};
ghost use Rattle.proj_commands.specs.Cases.{is_verdict, loaded};
ghost use Rattle.proj_commands.specs.Forms.{IsBeforeDevices, IsEarly, load_outcome};

use proj_io::Keeper;
use proj_words::Outcome;
use repo_ground::{LoadError, State};
use std::alloc::Global;

// The outcome of items that are not loaded.
fn load_outcome(error: LoadError) -> Outcome
    ensures { result ≡ load_outcome error }
{
    match error {
        LoadError::StoreFault => Outcome::StoreFault,
        LoadError::Damaged { item, at } => Outcome::Damaged { item, at },
        LoadError::Collision { name } => Outcome::Collision { name },
        LoadError::OutOfMemory => Outcome::OutOfMemory,
    }
}

/// Loads what the items of a store hold.
pub fn load<K: Keeper>(alloc: Global, store: &mut K) -> Result<State, Outcome>
    requires { K.is_open store.old }
    ensures ok { IfOk result (IsLoaded (K.items store.old) (K.number store.old)) }
    ensures err { (items : List Bytes) → K.items store.old ≡ Some items → IfErr result (IsEarly (loaded items)) }
    ensures other { IfErr result (λ e. is_verdict e ≡ false) }
    ensures early { IsBeforeDevices result }
    ensures kept { IsOnlyRead K.items K.number K.is_open K.tells K.moment K.left_since store.old store.new }
    ensures cause { Counts (K.faults store.old) (K.faults store.new) (result ≡ Err Outcome.StoreFault) }
{
    match State::load(alloc, store) {
        Err(error) => Err(load_outcome(error)),
        Ok(state) => Ok(state),
    }
}
