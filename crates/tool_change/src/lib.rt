// A record as it stands, and as it is to be: a field's bytes set by a word, and what changed.
#![tactic(auto)]

pub mod told;

use layout::edition::Edition;
use layout::size::SECOND_RECORD;
use std::alloc::{AllocError, Global};
use tool_bytes::byte_at;
use tool_field::{Field, Named, Set};
use tool_rows::row::Row;
use tool_value::mask::{chords, roots};

// Why a field is not set: there is no memory left, or the word is no value of it in this set.
#[derive(Clone, Copy)]
pub enum Unset {
    NoMemory,
    NoValue(Set),
}

impl From<AllocError> for Unset {
    fn from(_: AllocError) -> Unset {
        Unset::NoMemory
    }
}

// What stands, and what is to be.
#[derive(Clone, Copy)]
pub struct Change {
    pub old: Row,
    pub new: Row,
}

impl Change {
    // A record of an edition, of which nothing is changed yet.
    pub fn none(record: &[u8], is_second: bool) -> Change {
        let mut row = Row::blank();
        for i in 0..SECOND_RECORD {
            row.set_byte(i, byte_at(record, i));
        }
        if is_second {
            row.edition = Edition::Second;
        }
        Change { old: row, new: row }
    }
}

// The voice name, filled up with spaces.
fn set_voice(new: &mut Row, given: &[u8]) -> Option<()> {
    if 8 < given.len() {
        return None;
    }
    for i in 0..8 {
        let b = given.get(i).copied().unwrap_or(b' ');
        new.set_byte(i + 1, b);
    }
    Some(())
}

// A byte of a mask, from a bit on.
fn mask_byte(mask: usize, bit: usize) -> u8 {
    if 63 < bit {
        return 0;
    }
    ((mask >> bit) % 256) as u8
}

fn set_roots(new: &mut Row, mask: usize) {
    new.set_byte(11, mask_byte(mask, 8));
    new.set_byte(12, mask_byte(mask, 0));
}

// Byte 13 with other bits for chord types: the bit for starting by itself stays.
fn chords_13(old: u8, mask: usize) -> u8 {
    let kept = old / 4 * 4;
    let bits = mask_byte(mask, 32) % 4;
    kept + bits
}

fn set_chords(new: &mut Row, mask: usize) {
    let first = chords_13(new.byte(13), mask);
    new.set_byte(13, first);
    new.set_byte(14, mask_byte(mask, 24));
    new.set_byte(15, mask_byte(mask, 16));
    new.set_byte(16, mask_byte(mask, 8));
    new.set_byte(17, mask_byte(mask, 0));
}

// Byte 13 with the bit for starting by itself, or without it.
fn auto_13(old: u8, value: u8) -> u8 {
    let without = old / 8 * 8 + old % 4;
    if value == 0 {
        return without;
    }
    without.saturating_add(4)
}

// The rule that is to be, of a set.
pub fn rule_of(row: &Row, set: Set) -> u8 {
    row.byte(Field::Rule.place(row.is_second(), set))
}

// The byte that a word is in a field of a set.
fn value_in(alloc: Global, new: &Row, field: Field, set: Set, given: &[u8]) -> Result<u8, Unset> {
    let kind = field.kind(new.is_second(), rule_of(new, set));
    kind.value_of(alloc, given)?.ok_or(Unset::NoValue(set))
}

// Sets a field of one set, or of none.
fn set_one(
    alloc: Global,
    new: &mut Row,
    field: Field,
    set: Set,
    given: &[u8],
) -> Result<(), Unset> {
    let no_value = Unset::NoValue(set);
    match field {
        Field::Voice => set_voice(new, given).ok_or(no_value)?,
        Field::Roots => set_roots(new, roots(alloc, given)?.ok_or(no_value)?),
        Field::ChordTypes => set_chords(new, chords(alloc, given)?.ok_or(no_value)?),
        Field::AutoStart => {
            let value = value_in(alloc, new, field, set, given)?;
            let first = auto_13(new.byte(13), value);
            new.set_byte(13, first);
        }
        _ => {
            let value = value_in(alloc, new, field, set, given)?;
            let place = field.place(new.is_second(), set);
            new.set_byte(place, value);
        }
    }
    Ok(())
}

// Sets a field to what a word says: in the set that is named, else in each in turn, up to one where it says nothing.
pub fn set_field(alloc: Global, new: &mut Row, named: Named, given: &[u8]) -> Result<(), Unset> {
    let field = named.field;
    if let Some(set) = named.set {
        return set_one(alloc, new, field, set, given);
    }
    set_one(alloc, new, field, Set::Low, given)?;
    if new.is_second() && field.is_of_set() {
        set_one(alloc, new, field, Set::Middle, given)?;
        set_one(alloc, new, field, Set::High, given)?;
    }
    Ok(())
}
