// What holds of refs.
ghost use Rattle.ref_store.specs.Laws.{SetLaw};

/// What setting a ref leaves at each ref name.
pub fn set_law()
    ensures { SetLaw }
{}
