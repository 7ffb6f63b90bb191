// How many channels of a part play under each chord: a row of twelve counts for each chord type.
use crate::{part_from, put_file};
use casm::read::find_part;
use tool_out::Out;
use tool_rows::{Rows, read_rows};
use tool_who::{CHORDS, MARKS, count_all, count_at, is_auto, is_marked, no_counts, no_marks};

fn put_row(out: &mut Out, counts: &[usize; CHORDS], kind: usize) {
    part_from(out, kind);
    out.text(b"[");
    for root in 0..12 {
        part_from(out, root);
        out.number(count_at(counts, root, kind));
    }
    out.text(b"]");
}

fn put_counts(out: &mut Out, counts: &[usize; CHORDS]) {
    for kind in 0..34 {
        put_row(out, counts, kind);
    }
}

// The channels that start by themselves.
fn put_auto(out: &mut Out, rows: &Rows) {
    let mut before: usize = 0;
    for row in rows.held() {
        if is_auto(row) {
            part_from(out, before);
            out.number(row.channel());
            before = before.saturating_add(1);
        }
    }
}

// The channels that play under no chord.
fn put_never(out: &mut Out, rows: &Rows, marks: &[bool; MARKS]) {
    let mut before: usize = 0;
    for row in rows.held() {
        if !is_marked(marks, row) {
            part_from(out, before);
            out.number(row.channel());
            before = before.saturating_add(1);
        }
    }
}

// The part is one of the body's.
pub fn matrix_json(out: &mut Out, file: &[u8], body: &[u8], name: &[u8]) {
    let named = find_part(body, name);
    let rows = read_rows(body, named.group);
    let mut counts = no_counts();
    let mut marks = no_marks();
    count_all(&mut counts, &mut marks, body, name);
    put_file(out, file, name);
    out.text(b",\"channels\":");
    out.number(rows.count());
    out.text(b",\"matrix\":[");
    put_counts(out, &counts);
    out.text(b"],\"auto_start\":[");
    put_auto(out, &rows);
    out.text(b"],\"never\":[");
    put_never(out, &rows, &marks);
    out.text(b"]}");
    out.end_line();
}
