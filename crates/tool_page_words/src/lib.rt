// What the page says of an entry in more than one place: its kind, its title, where it stands, and its bytes.
#![tactic(auto)]

pub mod bytes;
pub mod parts;

use tool_bytes::{byte_at, part};
use tool_look::list::{Entry, Kind};
use tool_out::Out;
use tool_out::shown::How;
use tool_parts::put_parts;
use tool_reason::detail::{is_more, put_detail};
use tool_reason::{Cause, cause_of_entry};
use tool_words::reasons::Reason;

pub fn put_kind(out: &mut Out, kind: Kind) {
    out.text(kind.name());
}

// A letter as a capital.
fn upper(b: u8) -> u8 {
    if b'a' <= b && b <= b'z' {
        return b - 32;
    }
    b
}

fn put_upper(out: &mut Out, b: u8) {
    let letter = [upper(b)];
    out.text_as(How::Html, &letter);
}

// Words from a capital on.
fn put_capital(out: &mut Out, words: &[u8]) {
    put_upper(out, byte_at(words, 0));
    out.text_as(How::Html, part(words, 1, words.len()));
}

pub fn put_kind_capital(out: &mut Out, kind: Kind) {
    put_capital(out, kind.name());
}

pub fn put_reason_capital(out: &mut Out, case: Reason) {
    put_capital(out, case.words());
}

// What else there is to say of a refusal of these bytes, as a paragraph.
pub fn put_more(out: &mut Out, s: &[u8], cause: Cause) {
    if !is_more(cause) {
        return;
    }
    let mut memory = out.memory_for();
    put_detail(&mut memory, s, cause);
    out.text(b"<p class=\"detail\">");
    put_capital(out, memory.held());
    out.text(b"</p>");
    out.fail_with(&memory);
}

// The parts of a group, or why an entry is none.
pub fn put_title(out: &mut Out, body: &[u8], entry: Entry) {
    if entry.is_sound() {
        put_parts(out, How::Html, casm::read::group_text(entry.bytes(body), 0));
        return;
    }
    let cause = cause_of_entry(body, entry);
    put_reason_capital(out, cause.case);
}

// A place of a body, in the file and in the body.
pub fn put_places(out: &mut Out, from: usize, at: usize) {
    out.place(from.saturating_add(at));
    out.text(b" in the file, ");
    out.place(at);
    out.text(b" in the body");
}

// How many bytes, and where in the body.
pub fn put_where(out: &mut Out, from: usize, at: usize, length: usize) {
    out.count(length, b"byte", b"bytes");
    out.text(b" at ");
    put_places(out, from, at);
}

// What names entry k in the page: `e1` for the first.
pub fn put_id(out: &mut Out, k: usize) {
    out.byte(b'e');
    out.number(k.saturating_add(1));
}
