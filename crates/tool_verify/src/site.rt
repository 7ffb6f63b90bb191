// What stands at a place of a file, in words.
use casm::read::{find_casm, find_place, group_text, section_body};
use layout::answer::Sited;
use tool_bytes::{byte_at, is_tag};
use tool_out::Out;
use tool_out::shown::How;
use tool_parts::{next_section, put_parts, put_tag};
use tool_words::fields::put_field;

// The section that has a place of a sound file: where its tag stands.
fn section_with(file: &[u8], at: usize) -> usize {
    let mut tag: usize = 0;
    for _ in 0..file.len() {
        let next = next_section(file, tag);
        if at < next {
            return tag;
        }
        tag = next;
    }
    tag
}

// What of a header a byte is of, k bytes behind its start.
fn put_header(out: &mut Out, k: usize) {
    if k < 4 {
        out.text(b"the tag of ");
        return;
    }
    out.text(b"the length of ");
}

fn put_section(out: &mut Out, file: &[u8], tag: usize) {
    out.text(b"the section ");
    put_tag(out, How::Shown, file, tag);
    out.text(b" at ");
    out.place(tag);
}

// The group, as people count it, and its parts.
fn put_group(out: &mut Out, body: &[u8], group: usize) {
    out.text(b"group ");
    out.number(group.saturating_add(1));
    out.text(b" (");
    put_parts(out, How::Shown, group_text(body, group));
    out.text(b")");
}

// A chunk of a channel.
fn put_chunk(out: &mut Out, body: &[u8], chunk: usize) {
    out.text(b"the ");
    put_tag(out, How::Shown, body, chunk);
    if is_tag(body, chunk, b"Sdec") {
        return;
    }
    out.text(b" of ch ");
    out.number((byte_at(body, chunk.saturating_add(8)) as usize).saturating_add(1));
}

// The field that byte k of a chunk is of.
fn put_chunk_field(out: &mut Out, body: &[u8], chunk: usize, k: usize) {
    if is_tag(body, chunk, b"Sdec") {
        out.text(b"the part names");
        return;
    }
    if is_tag(body, chunk, b"Cntt") && 0 < k {
        out.text(b"second table");
        return;
    }
    put_field(out, is_tag(body, chunk, b"Ctb2"), k);
    out.text(b" (byte ");
    out.number(k);
    out.text(b")");
}

// A byte of a chunk, k bytes behind its tag's start.
fn put_in_chunk(out: &mut Out, body: &[u8], sited: Sited, k: usize) {
    if k < 8 {
        put_header(out, k);
        put_chunk(out, body, sited.chunk);
    } else {
        put_chunk_field(out, body, sited.chunk, k.saturating_sub(8));
        out.text(b" in ");
        put_chunk(out, body, sited.chunk);
    }
    out.text(b", ");
    put_group(out, body, sited.group);
}

// What stands at a place of a body.
fn put_in_body(out: &mut Out, body: &[u8], at: usize) {
    let sited = find_place(body, at);
    let k = at.saturating_sub(sited.chunk);
    if sited.child == 0 {
        put_header(out, k);
        put_group(out, body, sited.group);
        return;
    }
    put_in_chunk(out, body, sited, k);
}

// What stands at a place of a sound file: a section, and in CASM also the group, the chunk and the field.
pub fn put_site(out: &mut Out, file: &[u8], at: usize) {
    let tag = section_with(file, at);
    let k = at.saturating_sub(tag);
    if k < 8 {
        put_header(out, k);
        put_section(out, file, tag);
        return;
    }
    let found = find_casm(file);
    if found.tag != tag {
        out.text(b"byte ");
        out.number(k.saturating_sub(8));
        out.text(b" of ");
        put_section(out, file, tag);
        return;
    }
    put_in_body(
        out,
        section_body(file, tag, found.length),
        k.saturating_sub(8),
    );
    out.text(b" of ");
    put_section(out, file, tag);
}
