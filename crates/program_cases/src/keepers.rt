// A keeper over one in memory that says wrong sizes.
ghost use Rattle.std.specs.Prelude.{◌≡◌, ◌<◌, ◌-◌, false, length, None};
ghost use Rattle.proj_io.specs.Counts.{held, held_bound};
ghost use Rattle.proj_io.specs.Stops.{Untold};

use proj_io::{Failed, KeepError, Keeper, MemKeeper};

/// A keeper that says one size of all its items, and doesn't tell them.
#[derive(Drop)]
pub struct Misjudging {
    pub inner: MemKeeper,
    pub size: u32,
}

impl Keeper for Misjudging {
    ghost tells = { λ _. ⊥ };

    ghost items = { λ _. None };

    ghost number = { λ k. length k.inner.items };

    ghost faults = { λ k. held k.inner.faults };

    ghost is_open = { λ k. k.inner.broken ≡ false };

    ghost moment = { λ _. 0 };

    ghost left_since = { λ _. Untold };

    ghost known = { λ _ h. absurd h };

    ghost in_range = { λ k. held_bound k.inner.faults };

    ghost counted = { λ _. tt };

    ghost settled = { λ _ _ _ left. absurd left };

    fn count(&mut self) -> Result<u32, Failed> {
        self.inner.count()
    }

    fn size(&mut self, item: u32) -> Result<u32, Failed> {
        match self.inner.size(item) {
            Ok(0) => Ok(0),
            Ok(_) => Ok(self.size),
            Err(error) => Err(error),
        }
    }

    fn read(&mut self, item: u32, from: u32, buf: &mut [u8]) -> Result<usize, Failed> {
        self.inner.read(item, from, buf)
    }

    fn append(&mut self, bytes: &[u8]) -> Result<(), KeepError> {
        self.inner.append(bytes)
    }

    fn append_parts(&mut self, parts: &[&[u8]]) -> Result<(), KeepError> {
        self.inner.append_parts(parts)
    }
}
