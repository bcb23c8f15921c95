// What the lists that a stop leaves tell of its images.
ghost use Rattle.std.specs.Prelude.{◌≡◌, ◌++◌, List, ℕ, take, Ok};
ghost use Rattle.proj_journal.specs.Spelling.{spelled, listed};
ghost use Rattle.proj_journal.specs.Rest.{Leaves};

/// Where each list that an image may stand for is a list followed by the first so many of some items, the image isn't
/// broken, and its list is such a one.
pub fn images_are_whole()
    ensures { (image : List ℕ) (all added : List (List ℕ)) →
        ((list : List (List ℕ)) → Leaves image list → (n : ℕ) × (list ≡ all ++ take n added)) →
        (spelled image ≡ Ok (listed image)) × ((n : ℕ) × (listed image ≡ all ++ take n added)) }
{}
