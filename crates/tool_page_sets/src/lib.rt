// The settings of a set of six bytes, each under its name; the sets of a record.
#![tactic(auto)]

use tool_out::Out;
use tool_rows::row::Row;
use tool_words::names::{retrigger, rule, set, table_21};
use tool_words::{put_notes, put_root, put_table};

// What a channel of the first edition shows of how notes are placed.
pub fn head(n: usize) -> &'static [u8] {
    match n {
        1 => b"rule",
        2 => b"table",
        3 => b"high key",
        4 => b"notes",
        5 => b"retrigger",
        _ => b"source chord",
    }
}

// The settings by their names in that table, the first of them the rule.
pub const RULE: usize = 1;

const TABLE: usize = 2;

const HIGH_KEY: usize = 3;

pub const NOTES: usize = 4;

pub const SETTINGS: usize = 6;

fn put_rule(out: &mut Out, value: u8) {
    out.text(rule(value));
}

fn put_table_of(out: &mut Out, row: &Row, at: usize) {
    let value = row.byte(at.saturating_add(1));
    if row.is_second() {
        put_table(out, row.byte(at), value);
        return;
    }
    out.text(table_21(value));
}

fn put_retrigger(out: &mut Out, value: u8) {
    out.text(retrigger(value));
}

// The limits of a set as they stand.
pub fn put_limits(out: &mut Out, row: &Row, which: usize) {
    let at = row.set_place(which);
    put_notes(
        out,
        row.byte(at.saturating_add(3)),
        row.byte(at.saturating_add(4)),
    );
}

// Setting n of set number `which` of a row.
pub fn put_setting(out: &mut Out, row: &Row, which: usize, n: usize) {
    let at = row.set_place(which);
    if n == RULE {
        put_rule(out, row.byte(at));
        return;
    }
    if n == TABLE {
        put_table_of(out, row, at);
        return;
    }
    if n == HIGH_KEY {
        put_root(out, row.byte(at.saturating_add(2)));
        return;
    }
    if n == NOTES {
        put_limits(out, row, which);
        return;
    }
    put_retrigger(out, row.byte(at.saturating_add(5)));
}

// The middle range of a record of the second edition: where it begins, and the note behind it.
fn middle_from(row: &Row) -> usize {
    row.byte(20) as usize
}

fn middle_end(row: &Row) -> usize {
    (row.byte(21) as usize).saturating_add(1)
}

// The source notes of set number `which`: the first, and the one behind the last.
pub fn notes_from(row: &Row, which: usize) -> usize {
    if which == 0 {
        return 0;
    }
    let from = middle_from(row);
    let end = middle_end(row);
    if which == 1 || end < from {
        return from;
    }
    end
}

pub fn notes_end(row: &Row, which: usize) -> usize {
    if which == 0 {
        return middle_from(row);
    }
    if which == 1 {
        return middle_end(row);
    }
    128
}

// The name of a set and its source notes, in words.
pub fn put_source_notes(out: &mut Out, row: &Row, which: usize) {
    out.text(set((which % 256) as u8));
    out.byte(b' ');
    let from = notes_from(row, which);
    let end = notes_end(row, which);
    if end <= from {
        out.text(b"no notes");
        return;
    }
    put_notes(out, (from % 256) as u8, (end.saturating_sub(1) % 256) as u8);
}
