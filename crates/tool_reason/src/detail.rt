// What there is to say of a refusal besides its sentence: the lengths, the tag, the byte and its range, or the part name.
use crate::range::Chunk;
use crate::{Cause, parent_end, range};
use casm::read::{find_part, find_place};
use tool_bytes::{byte_at, is_tag, part, word_at};
use tool_out::Out;
use tool_out::shown::How;
use tool_words::fields::put_field;
use tool_words::reasons::Reason;

fn put_left(out: &mut Out, n: usize) {
    out.count(n, b"byte is", b"bytes are");
    out.text(b" left");
}

// A length, and what is left for it behind its header at place q.
fn put_lengths(out: &mut Out, s: &[u8], q: usize, end: usize) {
    out.text(b"the length says ");
    out.count(word_at(s, q.saturating_add(4)), b"byte", b"bytes");
    out.text(b", ");
    put_left(out, end.saturating_sub(q.saturating_add(8)));
}

fn put_tag(out: &mut Out, s: &[u8], q: usize) {
    out.text_as(How::Shown, part(s, q, 4));
}

// The length that a tag asks for.
fn wanted(s: &[u8], q: usize) -> usize {
    if is_tag(s, q, b"Ctab") {
        return layout::size::RECORD;
    }
    if is_tag(s, q, b"Ctb2") {
        return layout::size::SECOND_RECORD;
    }
    layout::size::CNTT_BYTES
}

fn put_size(out: &mut Out, s: &[u8], q: usize) {
    out.text(b"the length of this ");
    put_tag(out, s, q);
    out.text(b" says ");
    out.count(word_at(s, q.saturating_add(4)), b"byte", b"bytes");
    out.text(b", it must be ");
    out.number(wanted(s, q));
}

// The chunk that has a byte: which of those with ranges it is.
fn chunk_of(s: &[u8], chunk: usize) -> Chunk {
    if is_tag(s, chunk, b"Ctb2") {
        return Chunk::Ctb2;
    }
    if is_tag(s, chunk, b"Cntt") {
        return Chunk::Cntt;
    }
    Chunk::Ctab
}

fn put_name(out: &mut Out, chunk: Chunk, k: usize) {
    match chunk {
        Chunk::Cntt if 0 < k => out.text(b"second table"),
        _ => put_field(out, chunk == Chunk::Ctb2, k),
    }
}

// The byte at place q of a piece that is out of its range, its field, and the values that it may have.
fn put_byte(out: &mut Out, piece: &[u8], q: usize) {
    let sited = find_place(piece, q);
    let tag = sited.chunk;
    let k = q.saturating_sub(tag.saturating_add(8));
    let chunk = chunk_of(piece, tag);
    put_name(out, chunk, k);
    out.text(b" is ");
    range::put_value(out, byte_at(piece, q) as usize);
    out.text(b" (byte ");
    out.number(k);
    out.text(b" of a ");
    put_tag(out, piece, tag);
    out.text(b"), allowed is ");
    range::put_ranges(out, chunk, k, byte_at(piece, q.saturating_sub(1)));
}

// The end of the name that begins at `from`: at a comma, or at the text's end.
pub fn name_end(s: &[u8], from: usize, end: usize) -> usize {
    for i in from..end {
        if byte_at(s, i) == b',' {
            return i;
        }
    }
    end
}

// The first part name of the group at `start` that a group before it has, where there is one.
fn put_part(out: &mut Out, body: &[u8], start: usize) {
    let before = part(body, 0, start);
    let first = start.saturating_add(16);
    let end = first.saturating_add(word_at(body, start.saturating_add(12)));
    let mut from = first;
    for _ in 0..256 {
        let ended = name_end(body, from, end);
        let name = part(body, from, ended.saturating_sub(from));
        let found = find_part(before, name);
        if found.number == 0 {
            out.text(b"the part is \"");
            out.text_as(How::Shown, name);
            out.byte(b'"');
            return;
        }
        from = ended.saturating_add(1);
    }
}

// Whether there is something to say.
pub fn is_more(cause: Cause) -> bool {
    match cause.case {
        Reason::HeaderCut | Reason::SectionPast | Reason::GroupPast => true,
        Reason::LastGroupPast | Reason::ChunkPast | Reason::BadTag => true,
        Reason::BadSize | Reason::OutOfRange | Reason::NameAgain => true,
        _ => false,
    }
}

// What it is, in the bytes of a group or of a section.
fn put_in(out: &mut Out, case: Reason, piece: &[u8], q: usize) {
    match case {
        Reason::HeaderCut => put_left(out, parent_end(piece, q).saturating_sub(q)),
        Reason::BadTag => {
            out.text(b"the tag is \"");
            put_tag(out, piece, q);
            out.byte(b'"');
        }
        Reason::BadSize => put_size(out, piece, q),
        Reason::OutOfRange => put_byte(out, piece, q),
        _ => put_lengths(out, piece, q, parent_end(piece, q)),
    }
}

// What there is to say of a refusal of these bytes, a file's or a body's.
pub fn put_detail(out: &mut Out, s: &[u8], cause: Cause) {
    if let Reason::NameAgain = cause.case {
        put_part(out, s, cause.start);
        return;
    }
    let piece = part(s, cause.start, cause.end.saturating_sub(cause.start));
    put_in(
        out,
        cause.case,
        piece,
        cause.place.saturating_sub(cause.start),
    );
}
