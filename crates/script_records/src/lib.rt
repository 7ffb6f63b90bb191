// Records in a script's line, each as REC: one and several, taken and printed, and the table that is lent to a call.
// REC is 52 hex digits for bytes 0-25 of a record, `:`, the Cntt value as two hex digits or `-` for absent, `:`, and the Cntt's position in decimal;
// or 94 hex digits alone for the 47 bytes of a record of the second edition.
#![tactic(auto)]

pub mod blanks;
pub mod rows;

use casm::bytes::{bytes_of, record_of};
use layout::edition::Edition;
use layout::record::{Form, Record, SecondTable};
use layout::size::{HELD, SECOND_RECORD};
use script_text::print::Printed;
use script_words::hex::{byte_of, decode};
use script_words::word::{Words, number};

// The Cntt value of a REC: its two hex digits, or `-` for absent.
fn second_of(word: &[u8]) -> Option<SecondTable> {
    match word {
        b"-" => Some(None),
        [high, low] => Some(Some(byte_of(*high, *low)?)),
        _ => None,
    }
}

// The record of a REC of the first edition.
fn first_from(word: &[u8]) -> Option<Record> {
    let mut parts = word.split(|b| *b == b':');
    let mut bytes = [0u8; SECOND_RECORD];
    decode(parts.next()?, &mut bytes[0..HELD])?;
    let second = second_of(parts.next()?)?;
    let position = u8::try_from(number(parts.next()?)?).ok()?;
    if parts.next().is_some() {
        return None;
    }
    Some(record_of(Edition::First, bytes, second, position))
}

// The record of a REC of the second edition.
fn second_from(word: &[u8]) -> Option<Record> {
    let mut bytes = [0u8; SECOND_RECORD];
    decode(word, &mut bytes)?;
    Some(record_of(Edition::Second, bytes, None, 0))
}

// The record of a REC.
pub fn record_from(word: &[u8]) -> Option<Record> {
    second_from(word).or_else(|| first_from(word))
}

pub fn take_record(words: &mut Words<'_>) -> Option<Record> {
    record_from(words.word()?)
}

// Prints a record as REC.
pub fn put_record(out: &mut Printed, r: Record) {
    let bytes = bytes_of(r);
    match r.form {
        Form::One(x) => {
            out.bytes(&bytes[0..HELD]);
            out.byte(b':');
            match x.second {
                None => out.byte(b'-'),
                Some(v) => out.bytes(&[v]),
            }
            out.byte(b':');
            out.digits(usize::from(x.position));
        },
        Form::Three(_) => out.bytes(&bytes),
    }
}
