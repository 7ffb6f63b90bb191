// How notes are placed by the channels of a group of the second edition: a line a channel, and one a set, or one for all where the three are the same.
use crate::placed::put_limits;
use tool_out::Out;
use tool_rows::Rows;
use tool_rows::row::Row;
use tool_table::cut::put_wrapped;
use tool_table::row::put_row;
use tool_table::{COLUMNS, limit_all, measure, next_cell};
use tool_words::{names, put_notes, put_source, put_table};

const NO_RIGHT: [bool; COLUMNS] = [false; COLUMNS];

fn sets_head(cells: &mut Out) {
    cells.clear();
    cells.text(b"set\0rule\0table\0high key\0notes\0retrigger");
}

// Set number `set` of a channel.
fn set_row(cells: &mut Out, row: &Row, set: usize) {
    cells.clear();
    if row.is_one_set() {
        cells.text(b"all");
    } else {
        cells.text(names::set((set % 256) as u8));
    }
    let i = row.set_place(set);
    let rule = row.byte(i);
    next_cell(cells);
    cells.text(names::rule(rule));
    next_cell(cells);
    put_table(cells, rule, row.byte(i.saturating_add(1)));
    put_limits(cells, row, i);
}

// How many lines a channel has.
fn lines_of(row: &Row) -> usize {
    if row.is_one_set() {
        return 1;
    }
    3
}

fn measure_channel(widths: &mut [usize; COLUMNS], cells: &mut Out, row: &Row) {
    let count = lines_of(row);
    for set in 0..count {
        set_row(cells, row, set);
        measure(widths, cells);
    }
}

fn measure_sets(widths: &mut [usize; COLUMNS], cells: &mut Out, rows: &Rows) {
    sets_head(cells);
    measure(widths, cells);
    for row in rows.held() {
        measure_channel(widths, cells, row);
    }
}

// Bytes 40-46, which are unexplained, as they stand.
fn put_tail(out: &mut Out, row: &Row) {
    out.text(b", bytes 40-46");
    for i in 40..47 {
        out.byte(b' ');
        out.pair(row.byte(i));
    }
    out.end_line();
}

fn put_channel_head(out: &mut Out, row: &Row) {
    out.text(b"  ch ");
    out.number(row.channel());
    out.text(b": source ");
    put_source(out, row.byte(18), row.byte(19));
    out.text(b", middle ");
    put_notes(out, row.byte(20), row.byte(21));
    put_tail(out, row);
}

fn put_channel(out: &mut Out, cells: &mut Out, widths: &[usize; COLUMNS], row: &Row) {
    put_channel_head(out, row);
    let count = lines_of(row);
    for set in 0..count {
        set_row(cells, row, set);
        put_row(out, cells, widths, 4, NO_RIGHT);
    }
}

fn put_meaning(out: &mut Out, cells: &mut Out) {
    cells.clear();
    cells.text(
        b"Source notes in the middle range use the middle set, notes below it the low set, the other notes the high set; \"all\" stands where the three sets are the same.",
    );
    out.fill(b' ', 2);
    put_wrapped(out, cells, 2, false);
}

pub fn put_sets(out: &mut Out, cells: &mut Out, rows: &Rows) {
    let mut widths = [0usize; COLUMNS];
    put_meaning(out, cells);
    measure_sets(&mut widths, cells, rows);
    limit_all(&mut widths, [6, 10, 26, 8, 17, 19, 0, 0], 4, 8);
    sets_head(cells);
    put_row(out, cells, &widths, 4, NO_RIGHT);
    for row in rows.held() {
        put_channel(out, cells, &widths, row);
    }
}
