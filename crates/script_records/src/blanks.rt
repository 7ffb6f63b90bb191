// The table of 32 records that is lent to a call, blank before it, and whether its records still are.
use casm::bytes::{bytes_of, record_of};
use layout::edition::Edition;
use layout::record::{Form, Record, SecondTable};
use layout::size::{HELD, SECOND_RECORD};

// The record that lent tables hold before a call: every byte EEH, no Cntt, and the position EEH, too.
fn blank() -> Record {
    record_of(Edition::First, [0xEE; SECOND_RECORD], None, 0xEE)
}

pub fn blank_table() -> [Record; 32] {
    [blank(); 32]
}

// Whether a record still is blank, and so is what the first edition has of a Cntt.
fn is_blank(r: Record) -> bool {
    let bytes = bytes_of(r);
    match r.form {
        Form::One(x) => {
            x.position == 0xEE
                && matches!(x.second, None)
                && bytes[0..HELD].iter().all(|b| *b == 0xEE)
        },
        Form::Three(_) => false,
    }
}

// Whether the records from number `from` on still are blank.
pub fn is_kept(records: &[Record; 32], from: usize) -> bool {
    records.iter().skip(from).all(|r| is_blank(*r))
}
