// An edit inside a style file: the record is found where the file's CASM body stands, read once, and replaced there.
ghost use Rattle.std.specs.Prelude.{◌≡◌};
ghost use Rattle.layout.specs.Answers.{granted};
ghost use Rattle.layout.specs.Style.{casm_found};
ghost use Rattle.layout.specs.Promises.{FileEdited};

use crate::{answer, edit_at};
use layout::answer::Answered;
use layout::lock::Override;
use layout::record::{Record, SourceChannel};
use layout::refusal::NOT_THERE;
use read_find::locate_part;
use read_find::look::section_body;
use read_find::row::find_in;
use read_style::find_casm;

// The file whose CASM tag stands at `tag`, before a body of so many bytes: the body's refusal with its place in the file, 15 for the part and for the channel, then as `edit_at` has it.
fn edit_found(
    file: &mut [u8],
    tag: usize,
    length: usize,
    name: &[u8],
    channel: SourceChannel,
    new: Record,
    over: Override,
) -> Answered
    requires { casm_found file.old ≡ granted (record { start = tag; size = length }) }
    ensures { FileEdited file.old name.now channel.0 new over result file.new }
{
    let s = section_body(file, tag, length);
    match locate_part(s, name) {
        Err(why) => answer(why.number, tag + 8 + why.place),
        Ok(None) => answer(NOT_THERE, 0),
        Ok(Some(x)) => match find_in(s, x.standing, channel) {
            Err(why) => answer(why.number, why.place),
            Ok(row) => edit_at(file, row.edition, tag + 8 + row.at, channel, new, over),
        },
    }
}

// Replaces the record of a source channel in the group that has a part; only that record's bytes change, and nothing on refusal.
pub fn edit_file(
    file: &mut [u8],
    name: &[u8],
    channel: SourceChannel,
    new: Record,
    over: Override,
) -> Answered
    ensures { FileEdited file.old name.now channel.0 new over result file.new }
{
    let found = find_casm(file);
    if found.number != 0 {
        return answer(found.number, found.place);
    }
    edit_found(file, found.tag, found.length, name, channel, new, over)
}
