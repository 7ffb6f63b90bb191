// A record edited inside a body or a style file, and one field byte of a record set (document 01, "Writing and editing"; document 02, §6).
ghost use Rattle.std.specs.Prelude.{◌≡◌};
ghost use Rattle.layout.specs.Promises.{RecordEdited, FileEdited};
ghost use Rattle.layout.specs.Screen.{field_set, changed};
ghost use Rattle.c_row.specs.Rows.{recorded};
ghost use Rattle.c_export.specs.Crossing.{answered, edit_of, override_by};

use crate::answer::{Answer, Edited};
use c_row::row::Row;
use layout::lock::Override;
use layout::record::{Record, SourceChannel};

// The number by which a caller in C asks to override a lock.
pub const OVERRIDE: u8 = 1;

// What a caller in C asks for: any other number does not override.
fn override_by(number: u8) -> Override
    ensures { result ≡ override_by number }
{
    if number == OVERRIDE {
        return Override::Asked;
    }
    Override::NotAsked
}

// Replaces the record of a group and source channel inside a lent body; its Cntt is neither read nor checked.
#[unsafe(no_mangle)]
pub extern "C" fn casm_edit(body: &mut [u8], group: usize, source: u8, row: Row, over: u8) -> Answer
    ensures { RecordEdited body.old group source (recorded row) (override_by over) (answered result) body.new }
{
    let new = Record::from(row);
    let asked = override_by(over);
    let x = casm::editing::edit_record(body, group, SourceChannel(source), new, asked);
    Answer {
        number: x.number,
        place: x.place,
    }
}

// The same inside a lent style file, in the group that has a part.
#[unsafe(no_mangle)]
pub extern "C" fn casm_edit_file(
    file: &mut [u8],
    part: &[u8],
    source: u8,
    row: Row,
    over: u8,
) -> Answer
    ensures { FileEdited file.old part.now source (recorded row) (override_by over) (answered result) file.new }
{
    let new = Record::from(row);
    let asked = override_by(over);
    let x = casm::editing::edit_file(file, part, SourceChannel(source), new, asked);
    Answer {
        number: x.number,
        place: x.place,
    }
}

// The record with one field byte set, or as it was.
#[unsafe(no_mangle)]
pub extern "C" fn casm_field(row: Row, index: usize, value: u8) -> Edited
    ensures { result ≡ edit_of (changed (recorded row) (field_set (recorded row) index value)) }
{
    let x = casm::field::set_field(Record::from(row), index, value);
    let held = x.held;
    let told = Row::from(held);
    Edited {
        number: x.number,
        place: x.place,
        held: told,
    }
}
