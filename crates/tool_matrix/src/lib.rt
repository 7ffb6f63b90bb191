// `casm plays` for people, of a part alone: how many of its channels play under each chord, which start by themselves, and which play under no chord.
#![tactic(auto)]

use casm::read::find_part;
use tool_out::Out;
use tool_out::shown::How;
use tool_rows::row::Row;
use tool_rows::{Rows, read_rows};
use tool_who::{CHORDS, MARKS, count_all, count_at, is_auto, is_marked, no_counts, no_marks};
use tool_words::masks::{ROOTS, put_chords, put_mask};
use tool_words::{names, put_voice_or_none};

// The roots above their columns.
fn put_roots(out: &mut Out) {
    out.pad(0, 10);
    for k in 0..12usize {
        let name = names::root((k % 256) as u8);
        out.pad(name.len(), 4);
        out.text(name);
    }
    out.end_line();
}

fn put_count(out: &mut Out, n: usize) {
    if n == 0 {
        out.text(b"   .");
        return;
    }
    out.number_in(n, 4);
}

// The counts of a chord type.
fn put_row(out: &mut Out, counts: &[usize; CHORDS], kind: usize) {
    let name = names::chord((kind % 256) as u8);
    out.text(b"  ");
    out.padded(name, 8);
    for root in 0..12 {
        put_count(out, count_at(counts, root, kind));
    }
    out.end_line();
}

fn put_counts(out: &mut Out, counts: &[usize; CHORDS]) {
    put_roots(out);
    for kind in 0..34 {
        put_row(out, counts, kind);
    }
}

fn put_channel(out: &mut Out, row: &Row) {
    out.text(b"ch ");
    out.number(row.channel());
    out.text(b" ");
    put_voice_or_none(out, row.voice());
}

// A channel that starts by itself, behind those before it.
fn put_next(out: &mut Out, row: &Row, before: usize) {
    if before == 0 {
        out.text(b"  Auto start: ");
    } else {
        out.text(b", ");
    }
    put_channel(out, row);
}

fn put_auto(out: &mut Out, rows: &Rows) {
    let mut before: usize = 0;
    for row in rows.held() {
        if is_auto(row) {
            put_next(out, row, before);
            before = before.saturating_add(1);
        }
    }
    if 0 < before {
        out.end_line();
    }
}

// A channel that plays under no chord, and its masks.
fn put_silent(out: &mut Out, row: &Row) {
    out.text(b"  Plays under no chord: ");
    put_channel(out, row);
    out.text(b" (roots ");
    put_mask(out, row.root_mask(), ROOTS);
    out.text(b"; chord types ");
    put_chords(out, row.chord_mask());
    out.text(b")\n");
}

fn put_never(out: &mut Out, rows: &Rows, marks: &[bool; MARKS]) {
    for row in rows.held() {
        if !is_marked(marks, row) {
            put_silent(out, row);
        }
    }
}

// The part is one of the body's.
pub fn plays_matrix(out: &mut Out, body: &[u8], name: &[u8]) {
    let named = find_part(body, name);
    let rows = read_rows(body, named.group);
    let mut counts = no_counts();
    let mut marks = no_marks();
    count_all(&mut counts, &mut marks, body, name);
    out.text_as(How::Shown, name);
    out.text(b": how many of ");
    out.count(rows.count(), b"channel", b"channels");
    out.text(b" play under each chord (. none)\n\n");
    put_counts(out, &counts);
    out.end_line();
    put_auto(out, &rows);
    put_never(out, &rows, &marks);
}
