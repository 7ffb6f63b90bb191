// Checking what other editors return: the body or the style file that came back against the one that was sent (document 02, §13).
ghost use Rattle.layout.specs.Promises.{BodiesChecked, FilesChecked};

use layout::answer::Checked;
use layout::record::SourceChannel;

// Whether two bodies, both readable, are equally long and differ in no byte outside the record of a group and source channel of the first; if not, the first place at which they are unlike.
// A record may have changed in any byte, its source channel and its lock too.
pub fn check_bodies(before: &[u8], after: &[u8], group: usize, channel: SourceChannel) -> Checked
    ensures { BodiesChecked before.now after.now group channel.0 result }
{
    ask_check::check_bodies(before, after, group, channel)
}

// The same of two style files: every section other than CASM is to stand where it stood, byte for byte, and places count from the file's start.
pub fn check_files(before: &[u8], after: &[u8], group: usize, channel: SourceChannel) -> Checked
    ensures { FilesChecked before.now after.now group channel.0 result }
{
    ask_check::check_files(before, after, group, channel)
}
