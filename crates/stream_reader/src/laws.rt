// Laws of reading a stream.
ghost use Rattle.stream_reader.specs.Laws.{VerdictLaw, FaultLaw, SpellingLaw};

/// The verdict of a whole stream is its commands one by one, and each cutting into pieces tells the same. What was told
/// before more came is told again.
pub fn verdict_law()
    ensures { VerdictLaw }
{}

/// Behind a fault the next answer is this fault again, whatever is fed between, want of memory apart.
pub fn fault_law()
    ensures { FaultLaw }
{}

/// Of a whole stream a command is told exactly where the bytes spell it, and a fault only where they spell none.
pub fn spelling_law()
    ensures { SpellingLaw }
{}
