// What changed from one row to the other, field by field.
use crate::{Change, rule_of};
use std::array;
use tool_field::{FIELDS, Field, Set};
use tool_out::Out;
use tool_rows::row::Row;
use tool_value::Kind;
use tool_words::masks::{is_held, put_mask};
use tool_words::names::GUITAR;
use tool_words::{masks, put_note, put_voice_or_none};

const CHORD_BITS: usize = 0x4_0000_0000;

// A field of a set, or of none, which is then said to be of the first.
#[derive(Clone, Copy)]
struct Slot {
    field: Field,
    set: Set,
}

// In order: ten, and six for each set.
fn slot_at(k: usize) -> Slot {
    match k {
        0..=15 => Slot {
            field: FIELDS[k],
            set: Set::Low,
        },
        16..=21 => Slot {
            field: FIELDS[k - 6],
            set: Set::Middle,
        },
        _ => Slot {
            field: FIELDS[k.min(27) - 12],
            set: Set::High,
        },
    }
}

fn slots() -> [Slot; 28] {
    array::from_fn(|k| slot_at(k))
}

// Whether the bytes of a field differ.
fn is_unlike(change: &Change, slot: Slot) -> bool {
    let place = slot.field.place(change.old.is_second(), slot.set);
    let size = slot.field.size();
    change.old.part(place, size) != change.new.part(place, size)
}

// Whether the words for a table's byte are others: the rule chooses them.
fn is_other_table(change: &Change, set: Set) -> bool {
    (rule_of(&change.old, set) == GUITAR) != (rule_of(&change.new, set) == GUITAR)
}

// Whether a record of an edition has it.
fn is_there(change: &Change, slot: Slot) -> bool {
    change.old.is_second() || slot.set == Set::Low && !slot.field.is_second_only()
}

// Whether it changed.
fn is_changed(change: &Change, slot: Slot) -> bool {
    if !is_there(change, slot) {
        return false;
    }
    match slot.field {
        Field::ChordTypes => {
            change.old.chord_mask() % CHORD_BITS != change.new.chord_mask() % CHORD_BITS
        }
        Field::AutoStart => is_auto(&change.old) != is_auto(&change.new),
        Field::Table => is_other_table(change, slot.set) || is_unlike(change, slot),
        _ => is_unlike(change, slot),
    }
}

fn is_auto(row: &Row) -> bool {
    is_held(row.chord_mask(), masks::AUTO_START)
}

// A byte in the words of its kind.
fn put_byte(out: &mut Out, kind: Kind, value: u8) {
    match kind {
        Kind::Note => {
            put_note(out, value);
            out.text(b" (");
            out.number(value as usize);
            out.text(b")");
        }
        Kind::Destination => {
            out.number((value as usize).saturating_add(1));
            out.text(b" ");
            kind.put_named(out, value);
        }
        _ => kind.put_named(out, value),
    }
}

// What a field holds in a row.
fn put_held(out: &mut Out, row: &Row, slot: Slot) {
    let second = row.is_second();
    let kind = slot.field.kind(second, rule_of(row, slot.set));
    match slot.field {
        Field::Voice => put_voice_or_none(out, row.voice()),
        Field::Roots => put_mask(out, row.root_mask(), masks::ROOTS),
        Field::ChordTypes => put_mask(out, row.chord_mask(), masks::TYPES),
        Field::AutoStart => kind.put_named(out, is_auto(row) as u8),
        _ => put_byte(out, kind, row.byte(slot.field.place(second, slot.set))),
    }
}

// Its name, with the set before it in the second edition.
fn put_label(out: &mut Out, change: &Change, slot: Slot) {
    let set = Some(slot.set).filter(|_| change.old.is_second());
    slot.field.put_label(out, set);
}

// How wide the name is.
fn label_width(out: &mut Out, change: &Change, slot: Slot) -> usize {
    let mut words = out.memory_for();
    put_label(&mut words, change, slot);
    out.fail_with(&words);
    words.held().len()
}

// How many fields changed.
pub fn count_changed(change: &Change) -> usize {
    slots()
        .iter()
        .filter(|slot| is_changed(change, **slot))
        .count()
}

// How wide the widest name of those is.
fn widest(out: &mut Out, change: &Change) -> usize {
    let mut width: usize = 0;
    for slot in slots() {
        if is_changed(change, slot) {
            width = width.max(label_width(out, change, slot));
        }
    }
    width
}

fn put_change(out: &mut Out, change: &Change, slot: Slot, width: usize) {
    out.text(b"  ");
    put_label(out, change, slot);
    let own = label_width(out, change, slot);
    out.pad(own, width.saturating_add(2));
    put_held(out, &change.old, slot);
    out.text(b" -> ");
    put_held(out, &change.new, slot);
    out.end_line();
}

// A line for each field that changed: old and new.
pub fn put_changes(out: &mut Out, change: &Change) {
    let width = widest(out, change);
    for slot in slots() {
        if is_changed(change, slot) {
            put_change(out, change, slot, width);
        }
    }
}
