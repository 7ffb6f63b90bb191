// The part names of a group for people, and the sections of a file one by one.
#![tactic(auto)]

use casm::read::read_section;
use layout::refusal::{CUT, TAG_AGAIN};
use tool_bytes::{byte_at, part};
use tool_look::{Seen, Verdict};
use tool_out::Out;
use tool_out::shown::How;
use tool_reason::detail::name_end;

fn has_quote(name: &[u8]) -> bool {
    for i in 0..name.len() {
        if name[i] == b'"' {
            return true;
        }
    }
    false
}

// Whether a part name stands in quotes: it begins or ends with a space, or has a quote in it.
fn is_quoted(name: &[u8]) -> bool {
    if byte_at(name, 0) == b' ' {
        return true;
    }
    if byte_at(name, name.len().saturating_sub(1)) == b' ' {
        return true;
    }
    has_quote(name)
}

pub fn put_part(out: &mut Out, how: How, name: &[u8]) {
    if !is_quoted(name) {
        out.text_as(how, name);
        return;
    }
    out.text_as(how, b"\"");
    out.text_as(how, name);
    out.text_as(how, b"\"");
}

// The names of a list, a comma and a space between two.
pub fn put_parts(out: &mut Out, how: How, list: &[u8]) {
    let end = list.len();
    let mut from: usize = 0;
    for _ in 0..end.saturating_add(1) {
        let ended = name_end(list, from, end);
        put_part(out, how, part(list, from, ended.saturating_sub(from)));
        if end <= ended {
            return;
        }
        out.text(b", ");
        from = ended.saturating_add(1);
    }
}

// Up to where the sections of a file can be followed.
pub fn sections_end(file: &[u8], seen: Seen) -> usize {
    if seen.verdict == Verdict::NoStyle {
        return 0;
    }
    if seen.found.is_some() {
        return file.len();
    }
    if seen.number == CUT || seen.number == TAG_AGAIN {
        return seen.place;
    }
    file.len()
}

// The section behind the one at `tag`, or the file's end.
pub fn next_section(file: &[u8], tag: usize) -> usize {
    let found = read_section(file, tag);
    if found.number != 0 {
        return file.len();
    }
    tag.saturating_add(8).saturating_add(found.length)
}

pub fn section_length(file: &[u8], tag: usize) -> usize {
    let found = read_section(file, tag);
    found.length
}

// The tag of a section as it is shown.
pub fn put_tag(out: &mut Out, how: How, file: &[u8], tag: usize) {
    out.text_as(how, part(file, tag, 4));
}

// A text in quotes, as JSON has it.
pub fn put_json(out: &mut Out, words: &[u8]) {
    out.byte(b'"');
    out.text_as(How::Json, words);
    out.byte(b'"');
}
