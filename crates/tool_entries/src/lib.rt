// What the report says of each entry of a body: a sound group in full, any other with its reason, its place and its bytes.
#![tactic(auto)]

use casm::read::group_text;
use tool_dump::{Dump, put_dump};
use tool_group::placed::put_placed;
use tool_group::put_when;
use tool_group::sets::put_sets;
use tool_look::list::Entry;
use tool_look::totals::edition_of;
use tool_look::{Seen, Verdict};
use tool_out::Out;
use tool_out::shown::How;
use tool_parts::put_parts;
use tool_reason::detail::{is_more, put_detail};
use tool_reason::{Cause, cause_of_entry};
use tool_rows::{Rows, read_rows};
use tool_table::WIDE;
use tool_table::cut::put_wrapped;
use tool_words::names;

// A place in the file, and in the body that begins at `base`.
fn put_places(out: &mut Out, base: usize, at: usize) {
    out.place(base.saturating_add(at));
    out.text(b" in the file, ");
    out.place(at);
    out.text(b" in the body");
}

// `Refusal 2: ..`, and what there is to say of it, each wrapped behind an indent.
pub fn put_refusal(out: &mut Out, words: &mut Out, s: &[u8], cause: Cause, indent: usize) {
    words.clear();
    words.text(b"Refusal ");
    words.number(cause.number as usize);
    words.text(b": ");
    words.text(cause.case.words());
    out.fill(b' ', indent);
    put_wrapped(out, words, indent.saturating_add(2), false);
    if !is_more(cause) {
        return;
    }
    words.clear();
    put_detail(words, s, cause);
    out.fill(b' ', indent.saturating_add(2));
    put_wrapped(out, words, indent.saturating_add(2), false);
}

// Where an entry stands: its length and its places.
fn put_where(out: &mut Out, base: usize, entry: Entry) {
    out.text(b"  ");
    out.count(entry.length, b"byte", b"bytes");
    out.text(b" at ");
    put_places(out, base, entry.place);
    out.end_line();
}

// A damaged entry: why, where, and its bytes with that one marked.
fn put_damaged(
    out: &mut Out,
    words: &mut Out,
    file: &[u8],
    base: usize,
    body: &[u8],
    entry: Entry,
) {
    let cause = cause_of_entry(body, entry);
    let start = base.saturating_add(entry.place);
    put_refusal(out, words, body, cause, 2);
    words.clear();
    words.text(b"at ");
    put_places(words, base, cause.place);
    words.text(b", ");
    words.place(cause.place.saturating_sub(cause.start));
    words.text(b" in the entry");
    out.fill(b' ', 4);
    put_wrapped(out, words, 4, false);
    let dump = Dump {
        start,
        length: entry.length,
        mark: base.saturating_add(cause.place),
        is_marked: true,
    };
    put_dump(out, How::Plain, file, dump, 16, true);
}

fn put_loose(out: &mut Out, file: &[u8], base: usize, body: &[u8], entry: Entry) {
    let cause = cause_of_entry(body, entry);
    out.text(b"  Refusal ");
    out.number(cause.number as usize);
    out.text(b": ");
    out.text(cause.case.words());
    out.end_line();
    let dump = Dump {
        start: base.saturating_add(entry.place),
        length: entry.length,
        mark: 0,
        is_marked: false,
    };
    put_dump(out, How::Plain, file, dump, 16, true);
}

// The tables of a group's channels.
fn put_tables(out: &mut Out, words: &mut Out, rows: &Rows, edition: u8) {
    put_when(out, words, rows);
    out.text(b"\n  How notes are placed\n");
    if edition == 1 {
        put_placed(out, words, rows);
        return;
    }
    put_sets(out, words, rows);
}

// `Group 1 of 5: ` or `Entry 2 of 4, sound: `, and the part names wrapped behind it.
fn put_title(out: &mut Out, words: &mut Out, seen: Seen, k: usize, group: &[u8]) {
    words.clear();
    if seen.verdict == Verdict::Sound {
        words.text(b"Group ");
    } else {
        words.text(b"Entry ");
    }
    words.number(k.saturating_add(1));
    words.text(b" of ");
    words.number(seen.count());
    if seen.verdict != Verdict::Sound {
        words.text(b", sound");
    }
    words.text(b": ");
    out.text(words.held());
    let indent = words.held().len();
    words.clear();
    put_parts(words, How::Shown, group_text(group, 0));
    put_wrapped(out, words, indent, true);
}

fn put_sound(out: &mut Out, words: &mut Out, seen: Seen, group: &[u8], entry: Entry, k: usize) {
    put_title(out, words, seen, k, group);
    let edition = edition_of(group);
    let rows = read_rows(group, 0);
    let channels = rows.count();
    out.text(b"  ");
    out.text(names::edition(edition));
    if 0 < channels {
        out.text(b", ");
        out.count(channels, b"channel", b"channels");
    }
    out.end_line();
    put_where(out, seen.body_place(), entry);
    if 0 < channels {
        put_tables(out, words, &rows, edition);
    }
}

fn put_other_title(out: &mut Out, seen: Seen, k: usize, is_loose: bool) {
    out.text(b"Entry ");
    out.number(k.saturating_add(1));
    out.text(b" of ");
    out.number(seen.count());
    if is_loose {
        out.text(b", loose\n");
        return;
    }
    out.text(b", damaged\n");
}

// Entry k, behind a line.
pub fn put_entry(
    out: &mut Out,
    words: &mut Out,
    file: &[u8],
    body: &[u8],
    entry: Entry,
    seen: Seen,
    k: usize,
) {
    out.end_line();
    out.fill(b'-', WIDE);
    out.end_line();
    if entry.is_sound() {
        put_sound(out, words, seen, entry.bytes(body), entry, k);
        return;
    }
    let is_loose = entry.is_loose(body);
    put_other_title(out, seen, k, is_loose);
    put_where(out, seen.body_place(), entry);
    if is_loose {
        put_loose(out, file, seen.body_place(), body, entry);
        return;
    }
    put_damaged(out, words, file, seen.body_place(), body, entry);
}
