// An entry of the body as a box on a scale, with its number and its words.
#![tactic(auto)]

use tool_look::list::{Entry, Kind};
use tool_look::{Seen, Verdict};
use tool_out::Out;
use tool_page_share::{put_middle, put_share};
use tool_page_words::{put_id, put_kind, put_title};

// Entries are called groups where the body is sound.
pub fn put_entry_word(out: &mut Out, seen: Seen) {
    if seen.verdict == Verdict::Sound {
        out.text(b"Group ");
        return;
    }
    out.text(b"Entry ");
}

// `80 bytes at 70 (0x46)`, of an entry.
pub fn put_size(out: &mut Out, entry: Entry, seen: Seen) {
    out.count(entry.length, b"byte", b"bytes");
    out.text(b" at ");
    out.place(seen.body_place().saturating_add(entry.place));
}

// What entry k is, in words.
fn put_label(out: &mut Out, body: &[u8], entry: Entry, seen: Seen, k: usize) {
    put_entry_word(out, seen);
    out.number(k.saturating_add(1));
    out.text(b", ");
    put_kind(out, entry.kind(body));
    out.text(b", ");
    put_size(out, entry, seen);
    out.text(b": ");
    put_title(out, body, entry);
}

// The number of an entry in the middle of its box, on a plain ground where the box is hatched.
fn put_number(out: &mut Out, kind: Kind, at: usize, length: usize, of: usize, k: usize) {
    if kind != Kind::Sound {
        out.text(b"<circle class=\"pill\" cx=\"");
        put_middle(out, at, length, of);
        out.text(b"\" cy=\"20\" r=\"11\"/>");
    }
    out.text(b"<text class=\"");
    if kind == Kind::Sound {
        out.text(b"t-sound");
    } else {
        out.text(b"t-ink");
    }
    out.text(b"\" x=\"");
    put_middle(out, at, length, of);
    out.text(b"\" y=\"24.5\">");
    out.number(k.saturating_add(1));
    out.text(b"</text>");
}

// Whether a box has room for its number: six in a hundred.
fn is_roomy(length: usize, of: usize) -> bool {
    if 0x1_0000_0000 < length {
        return false;
    }
    if 0x1_0000_0000 < of {
        return false;
    }
    6 * of <= 100 * length
}

fn put_box(out: &mut Out, kind: Kind, at: usize, length: usize, of: usize) {
    out.text(b"<rect class=\"f-");
    put_kind(out, kind);
    out.text(b"\" x=\"");
    put_share(out, at, of);
    out.text(b"\" y=\"0\" width=\"");
    put_share(out, length, of);
    out.text(b"\" height=\"40\"/>");
}

// Where a link to entry k begins.
pub fn put_link(out: &mut Out, k: usize) {
    out.text(b"<a href=\"#");
    put_id(out, k);
    out.byte(b'"');
}

// Entry k in the map.
pub fn put_entry(out: &mut Out, body: &[u8], entry: Entry, seen: Seen, k: usize) {
    let kind = entry.kind(body);
    let at = entry.place;
    let length = entry.length;
    put_link(out, k);
    out.text(b" aria-label=\"");
    put_label(out, body, entry, seen, k);
    out.text(b"\"><title>");
    put_label(out, body, entry, seen, k);
    out.text(b"</title>");
    put_box(out, kind, at, length, seen.body_length());
    if is_roomy(length, seen.body_length()) {
        put_number(out, kind, at, length, seen.body_length(), k);
    }
    out.text(b"</a>");
}
