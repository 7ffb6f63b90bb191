// Placing a note by chord root (document 01, "Placing a note"; document 02, §3): signed arithmetic, octave folding by remainders below zero.
#![tactic(auto)]

pub mod choose;

ghost use Rattle.std.specs.Prelude.{◌≡◌, ◌||◌, ◌<◌, ◌≤◌, leb, length, pos};
ghost use Rattle.std.specs.Int.Signed.{mag};
ghost use Rattle.layout.specs.declared.edition.Edition.TheVariants.{First, Second};
ghost use Rattle.layout.specs.Records.{Absent};
ghost use Rattle.layout.specs.Answers.{refused, granted};
ghost use Rattle.layout.specs.Editions.{held};
ghost use Rattle.layout.specs.Place.{note_count, shift, folded, nearest, heard, placed};
ghost use Rattle.layout.specs.Plays.{root_count};
ghost use Rattle.layout.specs.Promises.{NotePlaced};
ghost use Rattle.layout.specs.Records.{record_of};
ghost use Rattle.ask_place.specs.Sets.{by_set};
ghost use Rattle.ask_place.specs.Octaves.{remainder};

use crate::choose::{effective_table, is_bypass, is_fixed, set_of_ctb2};
use layout::answer::Placed;
use layout::edition::Edition;
use layout::limit::{NOTE, ROOT};
use layout::record::{Record, SecondTable, Set};
use layout::refusal::{BAD_NUMBER, OUT_OF_RANGE, ROOT_FIXED};
use layout::size::{HELD, SECOND_RECORD};
use read_record::bytes::bytes_of;
use read_record::held::{edition_of, first_bad_of, second_of};
use read_record::made::set_at;

// The shift: 0 under bypass, else chord root minus source root, less 12 when the chord root is above the high key.
fn shift_to(table: u8, key: u8, from: u8, root: u8) -> i32
    ensures value { result ≡ shift table key from root }
    ensures near { mag result < 1024 }
{
    if is_bypass(table) {
        return 0;
    }
    let shift = (root as i32) - (from as i32);
    if key < root {
        return shift - 12;
    }
    shift
}

// The remainder by an octave, 0 to 11 also below zero.
fn octave_remainder(x: i32) -> i32
    requires { mag x < 8192 }
    ensures { result ≡ pos (remainder x) }
{
    let m = x % 12;
    if m < 0 {
        return m + 12;
    }
    m
}

// The value, or the octave of it nearest to the limit that it lies past.
fn fold(value: i32, low: u8, high: u8) -> i32
    requires { mag value < 4096 }
    ensures { result ≡ folded value low high }
{
    let l = low as i32;
    let h = high as i32;
    if value < l {
        return l + octave_remainder(value - l);
    }
    if h < value {
        return h - octave_remainder(h - value);
    }
    value
}

// The octave of the value within 0 to 127 that is nearest to the low limit, the lower of two equally near.
fn nearest_to(value: i32, low: u8) -> i32
    requires { (mag value < 4096) × (low < note_count) }
    ensures { result ≡ pos (nearest value low) }
{
    let l = low as i32;
    let up = octave_remainder(value - l);
    let above = l + up;
    let below = above - 12;
    if below < 0 {
        return above;
    }
    if (NOTE as i32) < above {
        return below;
    }
    // Six keys up are as near as six keys down.
    if 6 <= up {
        return below;
    }
    above
}

// The note that is heard of a value under the limits.
fn hear(value: i32, low: u8, high: u8) -> u8
    requires { (mag value < 4096) × ((low < note_count) × (high < note_count)) }
    ensures { result ≡ heard value low high }
{
    let n = fold(value, low, high);
    if n < (low as i32) || (high as i32) < n {
        return nearest_to(value, low) as u8;
    }
    n as u8
}

// The answer that is a refusal: note 0. The promise `NotePlaced` and C have this answer, and each of its three calls would make it of a Result again.
fn refusal(number: u8, place: usize) -> Placed
    ensures { result ≡ placed (refused number place) }
{
    Placed {
        number,
        place,
        note: 0,
    }
}

// The answer that is a note.
fn told(note: u8) -> Placed
    ensures { result ≡ placed (granted note) }
{
    Placed {
        number: 0,
        place: 0,
        note,
    }
}

// Whether a chord root or a note is none: 16.
fn is_bad_number(root: u8, note: u8) -> bool
    ensures { result ≡ leb root_count root || leb note_count note }
{
    ROOT < root || NOTE < note
}

// The note that a set and its effective table give, from a source root: 17, or the note.
fn place_by(set: Set, table: u8, from: u8, root: u8, note: u8) -> Placed
    requires { (note < note_count) × ((set.low < note_count) × (set.high < note_count)) }
    ensures { result ≡ placed (by_set set table from root note) }
{
    if is_fixed(set.rule, table) {
        return refusal(ROOT_FIXED, 0);
    }
    let shift = shift_to(table, set.key, from, root);
    told(hear((note as i32) + shift, set.low, set.high))
}

// The note that a Ctab gives, of the bytes at the start of b and its Cntt.
// Two functions and no generic one: a Ctab has one set and its effective table, a Ctb2 three sets of which the note takes one (docs/DECISIONS.md); what they share is `place_by`.
pub fn place_ctab(b: &[u8], second: SecondTable, root: u8, note: u8) -> Placed
    requires { held First ≤ length b.now }
    ensures { NotePlaced (record_of First b.now second 0) root note result }
{
    if is_bad_number(root, note) {
        return refusal(BAD_NUMBER, 0);
    }
    let bad = first_bad_of(Edition::First, b, second);
    if bad < HELD {
        return refusal(OUT_OF_RANGE, bad);
    }
    let set = set_at(b, 20);
    let table = effective_table(second, set.table);
    place_by(set, table, b[18], root, note)
}

// The note that a Ctb2 gives, of the bytes at the start of b.
pub fn place_ctb2(b: &[u8], root: u8, note: u8) -> Placed
    requires { held Second ≤ length b.now }
    ensures { NotePlaced (record_of Second b.now Absent 0) root note result }
{
    if is_bad_number(root, note) {
        return refusal(BAD_NUMBER, 0);
    }
    let bad = first_bad_of(Edition::Second, b, None);
    if bad < SECOND_RECORD {
        return refusal(OUT_OF_RANGE, bad);
    }
    let set = set_of_ctb2(b, note);
    place_by(set, set.table, b[18], root, note)
}

// The note that a record gives under a chord root, or the refusal.
pub fn place_note(r: Record, root: u8, note: u8) -> Placed
    ensures { NotePlaced r root note result }
{
    let b = bytes_of(r);
    match edition_of(r) {
        Edition::First => place_ctab(&b, second_of(r), root, note),
        Edition::Second => place_ctb2(&b, root, note),
    }
}
