// Laws of replays.
ghost use Rattle.fast_import.specs.TagLaws.{ReplayedTagsLaw};
ghost use Rattle.fast_import.specs.Waited.{WaitedLaw};

use stream_reader::spelling_law;
use tag_objects::putting_law;

/// A stream that is replayed is read to its end where it has no command `done`.
pub fn waited_law()
    ensures { WaitedLaw }
{}

/// Names of the tags that a stream gives rise in byte order. Each tag is of a commit of the stream or from before, and
/// has an ident, and a message of at most 2^20 bytes.
pub fn replayed_tags_law()
    ensures { ReplayedTagsLaw }
{
    putting_law();
    spelling_law();
}
