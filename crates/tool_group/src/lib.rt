// The two tables of a sound group in the report: when its channels play, and how their notes are placed.
#![tactic(auto)]

pub mod placed;
pub mod sets;

use tool_out::Out;
use tool_rows::Rows;
use tool_rows::row::Row;
use tool_table::row::put_row;
use tool_table::{COLUMNS, limit_all, measure, next_cell};
use tool_words::masks::{put_chords, put_mask};
use tool_words::{masks, put_destination, put_voice_or_none};

// The column of channels alone is set to the right.
pub const FIRST_RIGHT: [bool; COLUMNS] = [true, false, false, false, false, false, false, false];

fn when_head(cells: &mut Out) {
    cells.clear();
    cells.text(b"ch\0voice\0to\0lock\0roots\0chord types");
}

// A channel: who it is, and under which chords it plays.
fn when_row(cells: &mut Out, row: &Row) {
    cells.clear();
    cells.number(row.channel());
    next_cell(cells);
    put_voice_or_none(cells, row.voice());
    next_cell(cells);
    put_destination(cells, row.byte(9));
    next_cell(cells);
    if row.byte(10) == 1 {
        cells.text(b"locked");
    } else {
        cells.text(b"-");
    }
    next_cell(cells);
    put_mask(cells, row.root_mask(), masks::ROOTS);
    next_cell(cells);
    put_chords(cells, row.chord_mask());
}

fn measure_when(widths: &mut [usize; COLUMNS], cells: &mut Out, rows: &Rows) {
    when_head(cells);
    measure(widths, cells);
    for row in rows.held() {
        when_row(cells, row);
        measure(widths, cells);
    }
}

// `When they play`.
pub fn put_when(out: &mut Out, cells: &mut Out, rows: &Rows) {
    let mut widths = [0usize; COLUMNS];
    measure_when(&mut widths, cells, rows);
    limit_all(&mut widths, [2, 16, 13, 6, 19, 20, 0, 0], 2, 5);
    out.text(b"\n  When they play\n");
    when_head(cells);
    put_row(out, cells, &widths, 2, FIRST_RIGHT);
    for row in rows.held() {
        when_row(cells, row);
        put_row(out, cells, &widths, 2, FIRST_RIGHT);
    }
}
