// A channel record as a row, the same for both editions: its edition, its bytes, and three more for its Cntt.
ghost use Rattle.std.specs.Prelude.{◌≡◌};
ghost use Rattle.layout.specs.Records.{record_of};
ghost use Rattle.c_row.specs.Flat.{row_bytes};
ghost use Rattle.c_row.specs.Rows.{edition_by, edition_number, second_by, has_of, value_of, recorded, row_for};

use layout::edition::Edition;
use layout::record::{Record, SecondTable};
use layout::size::{ROW, SECOND_RECORD};
use read_record::bytes::bytes_of;
use read_record::held::{edition_of, position_of, second_of};
use read_record::made::record_of;

// The numbers of the editions.
pub const FIRST: u8 = 1;

pub const SECOND: u8 = 2;
// Where the parts of a row stand behind its edition: its bytes, whether there is a Cntt, its value, its position.
pub const BYTES_AT: usize = 1;

pub const HAS_AT: usize = 48;

pub const CNTT_AT: usize = 49;

pub const POSITION_AT: usize = 50;

// A channel record: its edition, its bytes (the first edition uses 26 of them), whether it has a Cntt (0 for none), the Cntt's value and its position. 51 bytes, as in a flat table.
// The bytes that its edition does not use are not looked at, nor is a Cntt of the second edition.
// C has it so: its edition is a number, and its Cntt two, where the library has enums.
#[repr(C)]
#[derive(Clone, Copy)]
pub struct Row {
    pub edition: u8,
    pub bytes: [u8; SECOND_RECORD],
    pub has_cntt: u8,
    pub cntt: u8,
    pub position: u8,
}

// A row's edition: any number but 2 is the first, for a caller that knows one edition.
// Two functions and no `From`: an edition and a number are both of other crates, and an impl can't stand here.
pub fn edition_by(number: u8) -> Edition
    ensures { result ≡ edition_by number }
{
    if number == SECOND {
        return Edition::Second;
    }
    Edition::First
}

// .. and its number.
pub fn edition_number(edition: Edition) -> u8
    ensures { result ≡ edition_number edition }
{
    match edition {
        Edition::First => FIRST,
        Edition::Second => SECOND,
    }
}

// The second table: none where `has_cntt` is 0.
pub fn second_by(has_cntt: u8, cntt: u8) -> SecondTable
    ensures { result ≡ second_by has_cntt cntt }
{
    if has_cntt == 0 {
        return None;
    }
    Some(cntt)
}

// Whether there is one ..
fn has_of(second: SecondTable) -> u8
    ensures { result ≡ has_of second }
{
    match second {
        None => 0,
        Some(_) => 1,
    }
}

// .. and its value.
fn value_of(second: SecondTable) -> u8
    ensures { result ≡ value_of second }
{
    match second {
        None => 0,
        Some(v) => v,
    }
}

// The record of an edition, of a row's bytes, a second table and a position.
fn made(edition: Edition, bytes: [u8; SECOND_RECORD], second: SecondTable, position: u8) -> Record
    ensures { result ≡ record_of edition bytes second position }
{
    record_of(edition, &bytes, second, position)
}

// The record itself.
impl From<Row> for Record {
    ghost from_gives = { λ row r. r ≡ recorded row };

    fn from(row: Row) -> Record {
        let bytes = row.bytes;
        let edition = edition_by(row.edition);
        let second = second_by(row.has_cntt, row.cntt);
        made(edition, bytes, second, row.position)
    }
}

// A record as it crosses.
impl From<Record> for Row {
    ghost from_gives = { λ r row. row ≡ row_for r };

    fn from(from: Record) -> Row {
        let edition = edition_number(edition_of(from));
        let bytes = bytes_of(from);
        let second = second_of(from);
        let has = has_of(second);
        let value = value_of(second);
        let position = position_of(from);
        Row {
            edition,
            bytes,
            has_cntt: has,
            cntt: value,
            position,
        }
    }
}

// A record as a row of a flat table.
pub fn row_bytes(from: Record) -> [u8; ROW]
    ensures { result ≡ row_bytes from }
{
    let edition = edition_number(edition_of(from));
    let b = bytes_of(from);
    let second = second_of(from);
    let has = has_of(second);
    let value = value_of(second);
    let position = position_of(from);
    [
        edition, b[0], b[1], b[2], b[3], b[4], b[5], b[6], b[7], b[8], b[9], b[10], b[11], b[12],
        b[13], b[14], b[15], b[16], b[17], b[18], b[19], b[20], b[21], b[22], b[23], b[24], b[25],
        b[26], b[27], b[28], b[29], b[30], b[31], b[32], b[33], b[34], b[35], b[36], b[37], b[38],
        b[39], b[40], b[41], b[42], b[43], b[44], b[45], b[46], has, value, position,
    ]
}
