// Editing inside a body, and inside a style file.
ghost use Rattle.layout.specs.Promises.{RecordEdited, FileEdited};

use layout::answer::Answered;
use layout::lock::Override;
use layout::record::{Record, SourceChannel};

// Replaces the record of a group and source channel inside a lent body. Only that record's bytes change; a Cntt given with the new record is neither read nor checked.
// A record that is read only in the body is refused unless the caller asks to override.
pub fn edit_record(
    s: &mut [u8],
    group: usize,
    channel: SourceChannel,
    new: Record,
    over: Override,
) -> Answered
    ensures { RecordEdited s.old group channel.0 new over result s.new }
{
    write_edit::edit_record(s, group, channel, new, over)
}

// Replaces the record of a source channel inside a lent style file, in the group that has a part. Only that record's bytes change: every other section, group and record stays, byte for byte.
// The places of refusals of the file and of its body count from the file's start; the others are those of `edit_record`.
pub fn edit_file(
    file: &mut [u8],
    name: &[u8],
    channel: SourceChannel,
    new: Record,
    over: Override,
) -> Answered
    ensures { FileEdited file.old name.now channel.0 new over result file.new }
{
    write_edit::file::edit_file(file, name, channel, new, over)
}
