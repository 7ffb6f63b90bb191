// Values by name or by number, as the words of a report have them: what kinds there are, and the byte that a word stands for.
#![tactic(auto)]

pub mod expected;
pub mod mask;

use std::alloc::{AllocError, Global};
use tool_chord::letter_of;
use tool_chord::note::parse_note;
use tool_out::{Out, To};
use tool_words::{names, put_chord, put_destination_name, put_root, put_table};

// The kinds of values. A rule of the first edition is none of those with tables of their own; a table is a Ctab's, a set's, or a set's under the rule Guitar.
#[derive(Clone, Copy)]
pub enum Kind {
    Root,
    Chord,
    Destination,
    FirstRule,
    Rule,
    FirstTable,
    Table,
    GuitarTable,
    Retrigger,
    Switch,
    Note,
    Voice,
    Roots,
    Chords,
}

impl Kind {
    // How many names it has.
    pub fn count(self) -> u8 {
        match self {
            Kind::Root => 12,
            Kind::Chord => 34,
            Kind::Destination => 8,
            Kind::FirstRule | Kind::Switch => 2,
            Kind::Rule => 3,
            Kind::FirstTable | Kind::GuitarTable | Kind::Retrigger => 6,
            Kind::Table => 22,
            Kind::Note | Kind::Voice | Kind::Roots | Kind::Chords => 0,
        }
    }

    // The byte that name k stands for: a destination's is its channel's, and the second half of a set's tables are those with the bass.
    pub fn byte_named(self, k: u8) -> u8 {
        match self {
            Kind::Destination => k.saturating_add(8),
            Kind::Table if 10 < k => k.saturating_add(117),
            Kind::GuitarTable if 2 < k => k.saturating_add(125),
            _ => k,
        }
    }

    // The name of a byte.
    pub fn put_named(self, out: &mut Out, value: u8) {
        match self {
            Kind::Root => put_root(out, value),
            Kind::Chord => put_chord(out, value),
            Kind::Destination => put_destination_name(out, value),
            Kind::FirstRule | Kind::Rule => out.text(names::rule(value)),
            Kind::FirstTable => out.text(names::table_21(value)),
            Kind::Table => put_table(out, 0, value),
            Kind::GuitarTable => put_table(out, names::GUITAR, value),
            Kind::Retrigger => out.text(names::retrigger(value)),
            _ => put_switch(out, value),
        }
    }

    fn is_named(self, alloc: Global, k: u8, given: &[u8]) -> Result<bool, AllocError> {
        let mut out = Out::new(alloc, To::Memory);
        self.put_named(&mut out, self.byte_named(k));
        Ok(out.whole()? == given)
    }

    // The byte that a name stands for.
    fn named(self, alloc: Global, given: &[u8]) -> Result<Option<u8>, AllocError> {
        for k in 0..self.count() {
            if self.is_named(alloc, k, given)? {
                return Ok(Some(self.byte_named(k)));
            }
        }
        Ok(None)
    }

    // The byte that a number stands for: channels are counted from 1. A chord type has none, for 7 is the name of one.
    fn numbered(self, given: &[u8]) -> Option<u8> {
        match self {
            Kind::Chord | Kind::Switch => None,
            Kind::Destination => number_of(given)?.checked_sub(1),
            _ => number_of(given),
        }
    }

    // The byte that a text stands for, a name or a number; whether it is sound is not looked at.
    pub fn value_of(self, alloc: Global, given: &[u8]) -> Result<Option<u8>, AllocError> {
        match self {
            Kind::Root => Ok(root_of(given)),
            Kind::Note => Ok(parse_note(given)),
            _ => Ok(self.named(alloc, given)?.or_else(|| self.numbered(given))),
        }
    }
}

fn put_switch(out: &mut Out, value: u8) {
    if value == 0 {
        out.text(b"no");
        return;
    }
    out.text(b"yes");
}

// The number that one to three digits are, where it is a byte.
fn number_of(given: &[u8]) -> Option<u8> {
    u8::try_from(tool_chord::note::number_of(given)?).ok()
}

// A root by its letter, also as Db, or by its number.
fn root_of(given: &[u8]) -> Option<u8> {
    match letter_of(given) {
        Some(letter) if letter.length == given.len() => Some((letter.steps % 12) as u8),
        _ => number_of(given),
    }
}
