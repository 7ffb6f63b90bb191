// The records at the end of a line, and the records of a table, printed.
use crate::blanks::blank_table;
use crate::{put_record, record_from};
use layout::record::Record;
use script_text::print::Printed;
use script_words::word::Words;

// The records of a line, in a table that is blank behind them, and how many there are: side by side, as `casm_by_value::write::write_with` takes them.
#[derive(Drop)]
pub struct Rows {
    pub lent: usize,
    pub records: [Record; 32],
}

// The records from the next word on, up to the line's end; None where the line has more than 32, or has something else.
pub fn take_records(words: &mut Words<'_>) -> Option<Rows> {
    let mut records = blank_table();
    for lent in 0..32 {
        let Some(word) = words.word() else {
            return Some(Rows { lent, records });
        };
        records[lent] = record_from(word)?;
    }
    words.end()?;
    Some(Rows { lent: 32, records })
}

// The first `count` records, a space before each.
pub fn put_records(out: &mut Printed, records: &[Record; 32], count: usize) {
    for r in records.iter().take(count) {
        out.byte(b' ');
        put_record(out, *r);
    }
}
