// Words for the bytes of a record: every name once, and the texts that are made of names.
#![tactic(auto)]

pub mod fields;
pub mod masks;
pub mod names;
pub mod reasons;

use names::{GUITAR, chord, destination, guitar_table, root, table};
use tool_out::Out;
use tool_out::shown::How;
use tool_out::words::trimmed;

// A note by its name; note 60 is C3.
pub fn put_note(out: &mut Out, note: u8) {
    out.text(root(note % 12));
    let octave = note / 12;
    if octave < 2 {
        out.byte(b'-');
        out.number((2 - octave) as usize);
        return;
    }
    out.number((octave - 2) as usize);
}

// A range of notes as its limits stand, also crossed: `C1-G2 (36-55)`.
pub fn put_notes(out: &mut Out, low: u8, high: u8) {
    put_note(out, low);
    out.byte(b'-');
    put_note(out, high);
    out.text(b" (");
    out.number(low as usize);
    out.byte(b'-');
    out.number(high as usize);
    out.byte(b')');
}

// A table of a Cntt, or of a set of a Ctb2 under its rule; bit 7 adds the bass.
pub fn put_table(out: &mut Out, rule: u8, value: u8) {
    if rule == GUITAR {
        out.text(guitar_table(value % 128));
    } else {
        out.text(table(value % 128));
    }
    if 128 <= value {
        out.text(b" + Bass");
    }
}

// A destination channel by its byte: its number and its name.
pub fn put_destination(out: &mut Out, value: u8) {
    if value < 9 {
        out.byte(b' ');
    }
    out.number((value as usize).saturating_add(1));
    out.byte(b' ');
    put_destination_name(out, value);
}

pub fn put_destination_name(out: &mut Out, value: u8) {
    out.text(destination((value as usize).saturating_sub(8) as u8));
}

// A voice name, eight bytes, without the spaces at its end.
pub fn put_voice(out: &mut Out, how: How, voice: &[u8]) {
    out.text_as(how, trimmed(voice));
}

// .. and where nothing is left of it, that.
pub fn put_voice_or_none(out: &mut Out, voice: &[u8]) {
    if trimmed(voice).is_empty() {
        out.text(b"(no name)");
        return;
    }
    put_voice(out, How::Shown, voice);
}

// A source root and chord type: `C Maj7`.
pub fn put_source(out: &mut Out, from: u8, kind: u8) {
    out.text(root(from));
    out.byte(b' ');
    put_chord(out, kind);
}

pub fn put_root(out: &mut Out, value: u8) {
    out.text(root(value));
}

pub fn put_chord(out: &mut Out, kind: u8) {
    out.text(chord(kind));
}
