// Laws of the language of filters.
ghost use Rattle.filter_text.specs.Laws.{DepthLaw, GrammarLaw, PrintLaw, SameLaw};

/// A text is read as a filter exactly where the grammar spells it so, and as no other; a workspace file is read as a
/// list of members exactly where the grammar spells it so.
pub fn grammar_law()
    ensures { GrammarLaw }
{}

/// A text is too deep exactly where some front of it has more than `limits::FILTER_NESTING` more bytes `[` than bytes
/// `]`.
pub fn depth_law()
    ensures { DepthLaw }
{}

/// The canonical text of a filter that was read is read as this filter, where it has at most `limits::FILTER_BYTES`
/// bytes and isn't too deep.
pub fn print_law()
    ensures { PrintLaw }
{}

/// The test that `same` meets says yes exactly where two filters are equal.
pub fn same_law()
    ensures { SameLaw }
{}
