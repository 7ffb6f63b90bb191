// How notes are placed by the channels of a group of the first edition: one set a channel, and the second table of a Cntt in a line of its own.
use crate::FIRST_RIGHT;
use tool_out::Out;
use tool_rows::Rows;
use tool_rows::row::Row;
use tool_table::row::put_row;
use tool_table::{COLUMNS, column_place, limit_all, measure, next_cell};
use tool_words::{names, put_notes, put_root, put_source, put_table};

fn placed_head(cells: &mut Out) {
    cells.clear();
    cells.text(b"ch\0source\0rule\0table\0high key\0notes\0retrigger");
}

// The cells of a set behind its table: high key, notes and retrigger; its six bytes begin at byte i of the row.
pub fn put_limits(cells: &mut Out, row: &Row, i: usize) {
    next_cell(cells);
    put_root(cells, row.byte(i.saturating_add(2)));
    next_cell(cells);
    put_notes(
        cells,
        row.byte(i.saturating_add(3)),
        row.byte(i.saturating_add(4)),
    );
    next_cell(cells);
    cells.text(names::retrigger(row.byte(i.saturating_add(5))));
}

fn placed_row(cells: &mut Out, row: &Row) {
    cells.clear();
    cells.number(row.channel());
    next_cell(cells);
    put_source(cells, row.byte(18), row.byte(19));
    next_cell(cells);
    cells.text(names::rule(row.byte(20)));
    next_cell(cells);
    cells.text(names::table_21(row.byte(21)));
    put_limits(cells, row, 20);
}

fn measure_placed(widths: &mut [usize; COLUMNS], cells: &mut Out, rows: &Rows) {
    placed_head(cells);
    measure(widths, cells);
    for row in rows.held() {
        placed_row(cells, row);
        measure(widths, cells);
    }
}

fn put_second(out: &mut Out, row: &Row, at: usize) {
    if let Some(table) = row.second {
        out.fill(b' ', at);
        out.text(b"second table: ");
        put_table(out, 0, table);
        out.end_line();
    }
}

fn put_channels(out: &mut Out, cells: &mut Out, widths: &[usize; COLUMNS], rows: &Rows, at: usize) {
    for row in rows.held() {
        placed_row(cells, row);
        put_row(out, cells, widths, 2, FIRST_RIGHT);
        put_second(out, row, at);
    }
}

pub fn put_placed(out: &mut Out, cells: &mut Out, rows: &Rows) {
    let mut widths = [0usize; COLUMNS];
    measure_placed(&mut widths, cells, rows);
    limit_all(&mut widths, [2, 10, 10, 14, 8, 17, 11, 0], 2, 6);
    placed_head(cells);
    put_row(out, cells, &widths, 2, FIRST_RIGHT);
    let at = column_place(&widths, 2, 3);
    put_channels(out, cells, &widths, rows, at);
}
