// `casm plays` for people: who plays under a chord; and of a part alone, how many play under each.

#![tactic(auto)]

use casm::read::find_part;
use tool_chord::put_name;
pub use tool_matrix::plays_matrix;
use tool_out::Out;
use tool_out::shown::How;
use tool_rows::row::Row;
use tool_rows::{Rows, read_rows};
use tool_table::row::put_row;
use tool_table::{COLUMNS, limit, limit_rest, measure, next_cell};
use tool_who::{MARKS, is_marked, mark_playing, no_marks, put_why};
use tool_words::{put_destination, put_voice_or_none};

// A question: the chord, and whether those are told of that play or those that do not.
#[derive(Clone, Copy)]
struct Asked {
    root: u8,
    kind: u8,
    is_playing: bool,
}

const RIGHTS: [bool; COLUMNS] = [true, false, false, false, false, false, false, false];

// The cells of the head.
fn fill_head(cells: &mut Out) {
    cells.clear();
    cells.text(b"ch");
    next_cell(cells);
    cells.text(b"voice");
    next_cell(cells);
    cells.text(b"to");
}

// The cells of the channel of a row: where it does not play, why.
fn fill_row(cells: &mut Out, row: &Row, asked: Asked) {
    cells.clear();
    cells.number(row.channel());
    next_cell(cells);
    put_voice_or_none(cells, row.voice());
    next_cell(cells);
    put_destination(cells, row.byte(9));
    if !asked.is_playing {
        next_cell(cells);
        put_why(cells, row, asked.root, asked.kind);
    }
}

// Whether the channel of a row is told of.
fn is_told(row: &Row, marks: &[bool; MARKS], asked: Asked) -> bool {
    is_marked(marks, row) == asked.is_playing
}

fn measure_rows(
    out: &mut Out,
    widths: &mut [usize; COLUMNS],
    rows: &Rows,
    marks: &[bool; MARKS],
    asked: Asked,
) {
    let mut cells = out.memory_for();
    fill_head(&mut cells);
    measure(widths, &cells);
    for row in rows.held() {
        if is_told(row, marks, asked) {
            fill_row(&mut cells, row, asked);
            measure(widths, &cells);
        }
    }
    out.fail_with(&cells);
    limit(widths, 0, 2);
    limit(widths, 1, 16);
    limit(widths, 2, 13);
    limit_rest(widths, 2, 3, 24);
}

fn put_rows(
    out: &mut Out,
    widths: &[usize; COLUMNS],
    rows: &Rows,
    marks: &[bool; MARKS],
    asked: Asked,
) {
    let mut cells = out.memory_for();
    for row in rows.held() {
        if is_told(row, marks, asked) {
            fill_row(&mut cells, row, asked);
            put_row(out, &cells, widths, 2, RIGHTS);
        }
    }
    out.fail_with(&cells);
}

// What stands above the rows.
fn put_head(out: &mut Out, widths: &[usize; COLUMNS], is_playing: bool) {
    if is_playing {
        let mut cells = out.memory_for();
        fill_head(&mut cells);
        put_row(out, &cells, widths, 2, RIGHTS);
        out.fail_with(&cells);
        return;
    }
    out.text(b"\n  Not under this chord\n");
}

// Those that play, or those that do not.
fn put_those(out: &mut Out, rows: &Rows, marks: &[bool; MARKS], asked: Asked) {
    let mut widths = [0usize; COLUMNS];
    measure_rows(out, &mut widths, rows, marks, asked);
    put_head(out, &widths, asked.is_playing);
    put_rows(out, &widths, rows, marks, asked);
}

fn asked_of(root: u8, kind: u8, is_playing: bool) -> Asked {
    Asked {
        root,
        kind,
        is_playing,
    }
}

// Who plays in a part under a chord, and of the others why not. The part is one of the body's.
pub fn plays_chord(out: &mut Out, body: &[u8], name: &[u8], root: u8, kind: u8) {
    let named = find_part(body, name);
    let rows = read_rows(body, named.group);
    let many = rows.count();
    let mut marks = no_marks();
    let playing = mark_playing(&mut marks, body, name, root, kind);
    out.text_as(How::Shown, name);
    out.text(b" under ");
    put_name(out, root, kind);
    out.text(b": ");
    out.number(playing);
    out.text(b" of ");
    out.count(many, b"channel", b"channels");
    out.text(b" play");
    out.end_line();
    out.end_line();
    if 0 < playing {
        put_those(out, &rows, &marks, asked_of(root, kind, true));
    }
    if 0 < many.saturating_sub(playing) {
        put_those(out, &rows, &marks, asked_of(root, kind, false));
    }
}
