// A channel of a sound group as JSON.
use crate::put::{put_flag, put_name, put_null, put_number, put_words};
use casm::read::find_channel;
use layout::record::SourceChannel;
use tool_out::Out;
use tool_out::shown::How;
use tool_rows::row::Row;
use tool_words::masks::{is_held, put_mask};
use tool_words::{masks, put_chord, put_destination_name, put_notes, put_root, put_voice};

// The names of those that a mask of so many bits holds.
fn put_held(out: &mut Out, mask: usize, count: usize) {
    let mut before: usize = 0;
    for k in 0..count {
        if is_held(mask, k) {
            put_one(out, count, k, before);
            before = before.saturating_add(1);
        }
    }
}

fn put_one(out: &mut Out, count: usize, k: usize, before: usize) {
    if 0 < before {
        out.byte(b',');
    }
    out.byte(b'"');
    if count == masks::ROOTS {
        put_root(out, (k % 256) as u8);
    } else {
        put_chord(out, (k % 256) as u8);
    }
    out.byte(b'"');
}

// A mask as a list under one name, and in words under another.
fn put_mask_both(
    out: &mut Out,
    words: &mut Out,
    name: &[u8],
    said: &[u8],
    mask: usize,
    count: usize,
) {
    put_name(out, name);
    out.byte(b'[');
    put_held(out, mask, count);
    out.byte(b']');
    words.clear();
    put_mask(words, mask, count);
    put_words(out, said, words);
}

fn put_who(out: &mut Out, words: &mut Out, row: &Row) {
    out.text(b"{\"channel\":");
    out.number(row.channel());
    put_name(out, b"voice");
    out.byte(b'"');
    put_voice(out, How::Json, row.voice());
    out.text(b"\",\"voice_bytes\":\"");
    out.text_as(How::Pairs, row.voice());
    out.byte(b'"');
    let to = row.byte(9);
    put_number(out, b"destination", (to as usize).saturating_add(1));
    words.clear();
    put_destination_name(words, to);
    put_words(out, b"destination_name", words);
    put_flag(out, b"locked", row.byte(10) == 1);
}

fn put_when(out: &mut Out, words: &mut Out, row: &Row) {
    let chords = row.chord_mask();
    put_mask_both(
        out,
        words,
        b"chord_types",
        b"chord_types_text",
        chords,
        masks::TYPES,
    );
    put_flag(out, b"auto_start", is_held(chords, masks::AUTO_START));
    put_mask_both(
        out,
        words,
        b"roots",
        b"roots_text",
        row.root_mask(),
        masks::ROOTS,
    );
    out.text(b",\"source_root\":\"");
    put_root(out, row.byte(18));
    out.text(b"\",\"source_chord\":\"");
    put_chord(out, row.byte(19));
    out.byte(b'"');
}

// The middle notes of a Ctb2.
fn put_middle(out: &mut Out, words: &mut Out, row: &Row) {
    if !row.is_second() {
        put_null(out, b"middle_notes");
        return;
    }
    out.text(b",\"middle_notes\":{\"low\":");
    out.number(row.byte(20) as usize);
    put_number(out, b"high", row.byte(21) as usize);
    words.clear();
    put_notes(words, row.byte(20), row.byte(21));
    put_words(out, b"text", words);
    out.byte(b'}');
}

// Bytes 40-46 of a Ctb2.
fn put_tail(out: &mut Out, row: &Row) {
    if !row.is_second() {
        put_null(out, b"unexplained");
        return;
    }
    out.text(b",\"unexplained\":\"");
    out.text_as(How::Pairs, row.part(40, 7));
    out.byte(b'"');
}

// Where the record stands: its byte 0 in the file and in the body, and its length.
fn put_record(out: &mut Out, row: &Row, group: &[u8], file_at: usize, body_at: usize) {
    let found = find_channel(group, 0, SourceChannel(row.byte(0)));
    out.text(b",\"place\":{\"file\":");
    out.number(file_at.saturating_add(found.at));
    put_number(out, b"body", body_at.saturating_add(found.at));
    out.byte(b'}');
    if row.is_second() {
        put_number(out, b"length", layout::size::SECOND_RECORD);
    } else {
        put_number(out, b"length", layout::size::RECORD);
    }
    out.byte(b'}');
}

pub fn put_channel(
    out: &mut Out,
    words: &mut Out,
    row: &Row,
    group: &[u8],
    file_at: usize,
    body_at: usize,
) {
    put_who(out, words, row);
    put_when(out, words, row);
    put_middle(out, words, row);
    out.text(b",\"sets\":[");
    crate::sets::put_sets(out, words, row);
    out.byte(b']');
    put_tail(out, row);
    put_record(out, row, group, file_at, body_at);
}
