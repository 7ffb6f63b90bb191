// What of a channel's record places a note: its set, and the set's rule, table, high key, limits and retrigger.
#![tactic(auto)]

use ask_place::choose::{effective_table, set_of_ctb2};
use layout::size::SECOND_RECORD;
use tool_out::Out;
use tool_rows::row::Row;
use tool_words::{names, put_notes, put_root, put_source, put_table};

// What a fact is called, before it.
fn put_label(out: &mut Out, label: &[u8]) {
    out.text(b"  ");
    out.padded(label, 11);
}

// The record of a row of the second edition with each set's number where its rule stands.
fn numbered(row: &Row) -> [u8; SECOND_RECORD] {
    let mut b = [0u8; SECOND_RECORD];
    b[20] = row.byte(20);
    b[21] = row.byte(21);
    b[28] = 1;
    b[34] = 2;
    b
}

// Which of its sets a Ctb2 uses for a note: the library chooses, and the chosen set tells its number.
fn set_number(row: &Row, note: u8) -> u8 {
    let b = numbered(row);
    let set = set_of_ctb2(&b, note);
    set.rule
}

// Which set of a row is used for a note: 0 where there is one alone.
fn set_used(row: &Row, note: u8) -> u8 {
    if !row.is_second() {
        return 0;
    }
    set_number(row, note)
}

fn put_set(out: &mut Out, row: &Row, set: u8) {
    if !row.is_second() {
        return;
    }
    put_label(out, b"set");
    out.text(names::set(set));
    out.text(b" notes; the middle ones are ");
    put_notes(out, row.byte(20), row.byte(21));
    out.end_line();
}

// The table of a Ctab that is in effect, and of byte 21 what it adds.
fn put_effective(out: &mut Out, row: &Row, rule: u8, table: u8) {
    if 5 < table {
        return;
    }
    let name = names::table_21(table);
    let value = effective_table(row.second, table);
    if row.second.is_some() {
        put_table(out, rule, value);
        out.text(b" (second table, in place of ");
        out.text(name);
        out.text(b")");
        return;
    }
    out.text(name);
    if 128 <= value {
        out.text(b" (that is ");
        put_table(out, rule, value);
        out.text(b")");
    }
}

fn put_table_of(out: &mut Out, row: &Row, rule: u8, table: u8) {
    put_label(out, b"table");
    if row.is_second() {
        put_table(out, rule, table);
    } else {
        put_effective(out, row, rule, table);
    }
    out.end_line();
}

// The facts that come after the table: from byte `at` of the row on the set stands.
fn put_limits(out: &mut Out, row: &Row, at: usize) {
    put_label(out, b"high key");
    put_root(out, row.byte(at.saturating_add(2)));
    out.end_line();
    put_label(out, b"notes");
    put_notes(
        out,
        row.byte(at.saturating_add(3)),
        row.byte(at.saturating_add(4)),
    );
    out.end_line();
    put_label(out, b"retrigger");
    out.text(names::retrigger(row.byte(at.saturating_add(5))));
    out.end_line();
}

// The facts of a row for a note, a line each.
pub fn put_facts(out: &mut Out, row: &Row, note: u8) {
    let set = set_used(row, note);
    let at = row.set_place(set as usize);
    let rule = row.byte(at);
    put_set(out, row, set);
    put_label(out, b"rule");
    out.text(names::rule(rule));
    out.end_line();
    put_table_of(out, row, rule, row.byte(at.saturating_add(1)));
    put_label(out, b"source");
    put_source(out, row.byte(18), row.byte(19));
    out.end_line();
    put_limits(out, row, at);
}
