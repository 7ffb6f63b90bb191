// The entries of a body as JSON: sound groups with their channels, others with their refusal and their bytes.
use crate::channel::put_channel;
use crate::put::{put_name, put_null, put_number, put_words};
use casm::read::group_text;
use tool_bytes::part;
use tool_dump::Dump;
use tool_look::Seen;
use tool_look::list::{Entry, List};
use tool_look::totals::edition_of;
use tool_out::Out;
use tool_parts::put_json;
use tool_reason::detail::{is_more, name_end, put_detail};
use tool_reason::{Cause, cause_of_entry};
use tool_rows::{Rows, read_rows};

// `,"refusal":{"number":..,"reason":..,"detail":..`, not yet ended.
pub fn put_refusal(out: &mut Out, words: &mut Out, s: &[u8], cause: Cause) {
    out.text(b",\"refusal\":{\"number\":");
    out.number(cause.number as usize);
    words.clear();
    words.text(cause.case.words());
    put_words(out, b"reason", words);
    if !is_more(cause) {
        put_null(out, b"detail");
        return;
    }
    words.clear();
    put_detail(words, s, cause);
    put_words(out, b"detail", words);
}

// A place in the file and in the body, not yet ended.
pub fn put_places(out: &mut Out, base: usize, at: usize) {
    out.text(b",\"place\":{\"file\":");
    out.number(base.saturating_add(at));
    put_number(out, b"body", at);
}

// The part names of a group.
fn put_parts(out: &mut Out, list: &[u8]) {
    let end = list.len();
    let mut from: usize = 0;
    for _ in 0..end.saturating_add(1) {
        let ended = name_end(list, from, end);
        put_json(out, part(list, from, ended.saturating_sub(from)));
        if end <= ended {
            return;
        }
        out.byte(b',');
        from = ended.saturating_add(1);
    }
}

fn put_channels(
    out: &mut Out,
    words: &mut Out,
    rows: &Rows,
    group: &[u8],
    file_at: usize,
    body_at: usize,
) {
    for (k, row) in rows.held().iter().enumerate() {
        if 0 < k {
            out.byte(b',');
        }
        put_channel(out, words, row, group, file_at, body_at);
    }
}

fn put_group(out: &mut Out, words: &mut Out, group: &[u8], base: usize, at: usize) {
    put_number(out, b"edition", edition_of(group) as usize);
    put_name(out, b"parts");
    out.byte(b'[');
    put_parts(out, group_text(group, 0));
    out.text(b"],\"channels\":[");
    let rows = read_rows(group, 0);
    put_channels(out, words, &rows, group, base.saturating_add(at), at);
    out.byte(b']');
}

fn put_other(out: &mut Out, words: &mut Out, file: &[u8], body: &[u8], entry: Entry, base: usize) {
    let cause = cause_of_entry(body, entry);
    put_refusal(out, words, body, cause);
    put_places(out, base, cause.place);
    put_number(out, b"entry", cause.place.saturating_sub(cause.start));
    out.text(b"}},\"dump\":");
    let dump = Dump {
        start: base.saturating_add(entry.place),
        length: entry.length,
        mark: base.saturating_add(cause.place),
        is_marked: !entry.is_loose(body),
    };
    tool_dump::json::put_dump(out, file, dump);
}

fn put_kind(out: &mut Out, body: &[u8], entry: Entry) {
    if entry.is_sound() {
        out.text(b"{\"kind\":\"sound\"");
        return;
    }
    if entry.is_loose(body) {
        out.text(b"{\"kind\":\"loose\"");
        return;
    }
    out.text(b"{\"kind\":\"damaged\"");
}

fn put_entry(out: &mut Out, words: &mut Out, file: &[u8], body: &[u8], entry: Entry, base: usize) {
    put_kind(out, body, entry);
    put_places(out, base, entry.place);
    out.byte(b'}');
    put_number(out, b"length", entry.length);
    if entry.is_sound() {
        put_group(out, words, entry.bytes(body), base, entry.place);
    } else {
        put_other(out, words, file, body, entry, base);
    }
    out.byte(b'}');
}

pub fn put_entries(
    out: &mut Out,
    words: &mut Out,
    file: &[u8],
    body: &[u8],
    list: &List,
    seen: Seen,
) {
    let base = seen.body_place();
    for k in 0..seen.count() {
        if 0 < k {
            out.byte(b',');
        }
        put_entry(out, words, file, body, list.at(k), base);
    }
}
