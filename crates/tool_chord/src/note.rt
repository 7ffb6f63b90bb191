// A note by its name and octave, C3 being 60, or by its number; and a source channel, 1-16.
use crate::{Letter, letter_of};
use tool_bytes::{byte_at, part};

// The number that one to three digits are.
pub fn number_of(text: &[u8]) -> Option<usize> {
    if text.is_empty() || 3 < text.len() {
        return None;
    }
    let mut n: usize = 0;
    for b in text {
        let digit = digit_of(*b)?;
        n = n.saturating_mul(10).saturating_add(digit);
    }
    Some(n)
}

// The digit that a byte is.
fn digit_of(b: u8) -> Option<usize> {
    if b.is_ascii_digit() {
        return Some((b - b'0') as usize);
    }
    None
}

// An octave as notes have it, from -2 to 8, as 0 to 10.
fn octave_of(text: &[u8]) -> Option<usize> {
    if byte_at(text, 0) == b'-' {
        let below = number_of(part(text, 1, text.len()))?;
        return 2usize.checked_sub(below);
    }
    let above = number_of(text)?;
    Some(above.saturating_add(2)).filter(|&octave| octave <= 10)
}

fn note_of(n: usize) -> Option<u8> {
    u8::try_from(n).ok().filter(|&note| note < 128)
}

// A note that is named, as C3, Eb-1.
fn parse_named(letter: Letter, text: &[u8]) -> Option<u8> {
    let octave = octave_of(letter.behind(text))?;
    let twelve_up = octave.saturating_mul(12).saturating_add(letter.steps);
    note_of(twelve_up.checked_sub(12)?)
}

pub fn parse_note(text: &[u8]) -> Option<u8> {
    match letter_of(text) {
        Some(letter) => parse_named(letter, text),
        None => note_of(number_of(text)?),
    }
}

// The byte of a source channel that is counted from 1.
pub fn parse_channel(text: &[u8]) -> Option<u8> {
    let below = number_of(text)?.checked_sub(1)?;
    u8::try_from(below).ok().filter(|&channel| channel < 16)
}
