// A chord, a note and a channel as musicians write them: F#m7, Eb-1, 11.
#![tactic(auto)]

pub mod note;
pub mod wrong;

pub use note::{parse_channel, parse_note};
use tool_bytes::{byte_at, part};
use tool_out::Out;
use tool_words::{names, put_root};
pub use wrong::{complain_channel, complain_chord, complain_note};

#[derive(Clone, Copy)]
pub struct Chord {
    pub root: u8,
    pub kind: u8,
}

// Why a text is no chord.
#[derive(Clone, Copy)]
pub enum NoChord {
    NoRoot,
    NoType,
}

// A letter and what stands behind it: half steps above the C below, plus 12 so that Cb has a number too, and how many bytes it has.
#[derive(Clone, Copy)]
pub struct Letter {
    pub steps: usize,
    pub length: usize,
}

impl Letter {
    // What stands behind it in its text.
    pub fn behind<'a>(self, text: &'a [u8]) -> &'a [u8] {
        part(text, self.length, text.len())
    }
}

// The steps of a letter alone.
fn steps_of(letter: u8) -> Option<usize> {
    match letter {
        b'C' => Some(12),
        b'D' => Some(14),
        b'E' => Some(16),
        b'F' => Some(17),
        b'G' => Some(19),
        b'A' => Some(21),
        b'B' => Some(23),
        _ => None,
    }
}

pub fn letter_of(text: &[u8]) -> Option<Letter> {
    let steps = steps_of(byte_at(text, 0))?;
    Some(match byte_at(text, 1) {
        b'#' => Letter {
            steps: steps.saturating_add(1),
            length: 2,
        },
        b'b' => Letter {
            steps: steps.saturating_sub(1),
            length: 2,
        },
        _ => Letter { steps, length: 1 },
    })
}

// What stands behind the root.
pub fn behind_root<'a>(text: &'a [u8]) -> &'a [u8] {
    match letter_of(text) {
        Some(letter) => letter.behind(text),
        None => text,
    }
}

// The chord type of a text; none is Maj.
fn kind_of(text: &[u8]) -> Option<u8> {
    if text.is_empty() {
        return Some(0);
    }
    (0..34).find(|&kind| text == names::chord(kind))
}

// A letter A-G, then # or b or neither, then a chord type.
pub fn parse_chord(text: &[u8]) -> Result<Chord, NoChord> {
    let letter = letter_of(text).ok_or(NoChord::NoRoot)?;
    let kind = kind_of(letter.behind(text)).ok_or(NoChord::NoType)?;
    Ok(Chord {
        root: (letter.steps % 12) as u8,
        kind,
    })
}

// A chord as it is written: Maj is left off.
pub fn put_name(out: &mut Out, root: u8, kind: u8) {
    put_root(out, root);
    if kind != 0 {
        tool_words::put_chord(out, kind);
    }
}
