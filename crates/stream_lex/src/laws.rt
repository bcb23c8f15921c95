// Laws of lines and blocks.
ghost use Rattle.stream_lex.specs.Laws.{LineLaw, BlockLaw, CuttingLaw};

/// A line is told exactly where it stands in a whole stream.
pub fn line_law()
    ensures { LineLaw }
{}

/// A block is told exactly where it stands in a whole stream.
pub fn block_law()
    ensures { BlockLaw }
{}

/// Whatever pieces a stream is cut into, what is told of its lines and blocks is what is told of the whole.
pub fn cutting_law()
    ensures { CuttingLaw }
{}
