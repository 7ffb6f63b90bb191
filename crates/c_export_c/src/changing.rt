// A record edited inside a body or a style file, and one field byte of a record set (document 01, "Writing and editing"; document 02, §6).
ghost use Rattle.std.specs.Prelude.{◌≡◌};
ghost use Rattle.layout.specs.Promises.{RecordEdited, FileEdited};
ghost use Rattle.layout.specs.Screen.{field_set, changed};
ghost use Rattle.c_row.specs.Rows.{recorded};
ghost use Rattle.c_export.specs.Crossing.{answered, edit_of, override_by};

use c_export::answer::{Answer, Edited};
use c_row::row::Row;

// Replaces the record of a group and source channel inside a lent body; its Cntt is neither read nor checked.
#[unsafe(no_mangle)]
pub extern "C" fn casm_edit(body: &mut [u8], group: usize, source: u8, row: Row, over: u8) -> Answer
    ensures { RecordEdited body.old group source (recorded row) (override_by over) (answered result) body.new }
{
    c_export::changing::casm_edit(body, group, source, row, over)
}

// The same inside a lent style file, in the group that has a part.
#[unsafe(no_mangle)]
pub extern "C" fn casm_edit_file(
    file: &mut [u8],
    part: &[u8],
    source: u8,
    row: Row,
    over: u8,
) -> Answer
    ensures { FileEdited file.old part.now source (recorded row) (override_by over) (answered result) file.new }
{
    c_export::changing::casm_edit_file(file, part, source, row, over)
}

// The record with one field byte set, or as it was.
#[unsafe(no_mangle)]
pub extern "C" fn casm_field(row: Row, index: usize, value: u8) -> Edited
    ensures { result ≡ edit_of (changed (recorded row) (field_set (recorded row) index value)) }
{
    c_export::changing::casm_field(row, index, value)
}
