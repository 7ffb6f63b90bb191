// The channels of a sound group, a row each: what the records of either edition hold, and the Cntt.
#![tactic(auto)]

pub mod row;

use casm_by_value::read_with_room;
use layout::edition::Edition;
use layout::record::Record;
use layout::size::SECOND_RECORD;
use row::Row;

const MOST: usize = 16;

// The rows of a group, and how many of them there are.
#[derive(Clone, Copy)]
pub struct Rows {
    rows: [Row; MOST],
    count: usize,
}

impl Rows {
    // Row k, a blank one where there is none.
    pub fn at(&self, k: usize) -> Row {
        if k < MOST {
            return self.rows[k];
        }
        Row::blank()
    }

    pub fn held(&self) -> &[Row] {
        &self.rows[..self.count.min(MOST)]
    }

    pub fn count(&self) -> usize {
        self.held().len()
    }
}

// The record that the lent table holds before the call.
fn blank() -> Record {
    casm::bytes::record_of(Edition::First, [0; SECOND_RECORD], None, 0)
}

pub fn blank_table() -> [Record; 32] {
    [blank(); 32]
}

// The channels of group number `group` of a body, in the order of the file.
pub fn read_rows(body: &[u8], group: usize) -> Rows {
    let filled = read_with_room(body, group, blank_table(), 32);
    let table = filled.table;
    let mut rows = [Row::blank(); MOST];
    for k in 0..MOST {
        rows[k] = Row::from(table[k]);
    }
    Rows {
        rows,
        count: filled.answer.count,
    }
}
