// The sets of a channel as JSON: one with the name `all`, or those of the low, the middle and the high notes.
use crate::put::{put_name, put_null, put_number, put_words};
use tool_out::Out;
use tool_rows::row::Row;
use tool_words::{names, put_notes, put_root, put_table};

// Notes from one to another; null where there are none.
fn put_reach(out: &mut Out, low: usize, end: usize) {
    if end <= low {
        put_null(out, b"source_notes");
        return;
    }
    out.text(b",\"source_notes\":{\"low\":");
    out.number(low);
    put_number(out, b"high", end.saturating_sub(1));
    out.byte(b'}');
}

// The source notes that use set number `set`: those below the middle range, in it, and the others.
fn put_source_notes(out: &mut Out, row: &Row, set: usize) {
    if !row.is_second() {
        put_reach(out, 0, 128);
        return;
    }
    let low = row.byte(20) as usize;
    let behind = (row.byte(21) as usize).saturating_add(1);
    if set == 0 {
        put_reach(out, 0, low);
        return;
    }
    if set == 1 {
        put_reach(out, low, behind);
        return;
    }
    if behind < low {
        put_reach(out, low, 128);
        return;
    }
    put_reach(out, behind, 128);
}

fn put_set_name(out: &mut Out, row: &Row, set: usize) {
    out.text(b"{\"set\":\"");
    if row.is_second() {
        out.text(names::set((set % 256) as u8));
    } else {
        out.text(b"all");
    }
    out.byte(b'"');
}

fn put_table_name(words: &mut Out, row: &Row, i: usize) {
    if row.is_second() {
        put_table(words, row.byte(i), row.byte(i.saturating_add(1)));
        return;
    }
    words.text(names::table_21(row.byte(i.saturating_add(1))));
}

fn put_second(out: &mut Out, words: &mut Out, row: &Row) {
    match row.second {
        None => put_null(out, b"second_table"),
        Some(table) => {
            words.clear();
            put_table(words, 0, table);
            put_words(out, b"second_table", words);
        }
    }
}

// The limits of a set whose bytes begin at byte i, and its retrigger rule.
fn put_limits(out: &mut Out, words: &mut Out, row: &Row, i: usize) {
    let low = row.byte(i.saturating_add(3));
    let high = row.byte(i.saturating_add(4));
    put_name(out, b"high_key");
    out.byte(b'"');
    put_root(out, row.byte(i.saturating_add(2)));
    out.byte(b'"');
    put_number(out, b"low_limit", low as usize);
    put_number(out, b"high_limit", high as usize);
    words.clear();
    put_notes(words, low, high);
    put_words(out, b"limits", words);
    words.clear();
    words.text(names::retrigger(row.byte(i.saturating_add(5))));
    put_words(out, b"retrigger", words);
    out.byte(b'}');
}

fn put_set(out: &mut Out, words: &mut Out, row: &Row, set: usize) {
    let i = row.set_place(set);
    put_set_name(out, row, set);
    put_source_notes(out, row, set);
    words.clear();
    words.text(names::rule(row.byte(i)));
    put_words(out, b"rule", words);
    words.clear();
    put_table_name(words, row, i);
    put_words(out, b"table", words);
    put_second(out, words, row);
    put_limits(out, words, row, i);
}

fn sets_of(row: &Row) -> usize {
    if row.is_second() {
        return 3;
    }
    1
}

pub fn put_sets(out: &mut Out, words: &mut Out, row: &Row) {
    let count = sets_of(row);
    for set in 0..count {
        if 0 < set {
            out.byte(b',');
        }
        put_set(out, words, row, set);
    }
}
