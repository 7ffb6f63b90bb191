// What may be written (document 01, "Numbers of refusal": writing; document 02, §1 and §4): 16, 8, per record 21, 9 and 10, then 18, and room 14 last.
#![tactic(auto)]

ghost use Rattle.std.specs.Prelude.{◌≡◌, ◌+◌, ◌*◌, ◌≤◌, ◌<◌, length};
ghost use Rattle.layout.specs.Editions.{size, held};
ghost use Rattle.layout.specs.Records.{record_of};
ghost use Rattle.layout.specs.Write.{cntt_count};
ghost use Rattle.write_plan.specs.Checking.{first_checked, begun, due, chunks_size, first_only, records_never, free, laid_down, claimed, Looking, looked, laid_after, taken, planned, measured_by};

use layout::answer::Measured;
use layout::edition::Edition;
use layout::limit::CHANNELS;
use layout::record::{Record, SecondTable};
use layout::refusal::{
    BAD_NUMBER, BAD_POSITIONS, BAD_TEXT, CHANNEL_AGAIN, NO_ROOM, OTHER_EDITION, OUT_OF_RANGE,
};
use layout::size::{CNTT_BYTES, CNTT_STRIDE, HEADERS, RECORD, SECOND_RECORD};
use layout::turn::Refusal;
use read_record::bytes::bytes_of;
use read_record::edition::{held_of, size_of};
use read_record::held::{edition_of, first_bad_of, position_of, second_of};

// What the records looked at so far come to, where none is refused: how many are to be looked at in all, the edition of the first, the group's length with those seen,
// which source channels they have (bit k of `seen` is set where one has channel k), how many of them have a Cntt,
// and how many Cntts there must be for their positions to be right.
#[derive(Clone, Copy)]
pub struct Checked {
    pub records: usize,
    pub edition: Edition,
    pub length: usize,
    pub seen: u64,
    pub seconds: usize,
    pub reach: usize,
}

// That, or the refusal.
pub type Looked = Result<Checked, Refusal>;

// That, and their Cntts laid down: the channel of the one at position p, from 1, at 2 * p - 2, and its value behind it.
// An array and no Vec: the library has no heap, and positions are taken in any order, so that no length goes beside it until all are looked at.
#[derive(Clone, Copy)]
pub struct Taken {
    pub checked: Looked,
    pub cntts: [u8; 32],
}

// What writing comes to: how many records of one edition go into a group of so many bytes, and its Cntts, laid down.
#[derive(Clone, Copy)]
pub struct Plan {
    pub records: usize,
    pub edition: Edition,
    pub length: usize,
    pub seconds: usize,
    pub cntts: [u8; 32],
}

// .. or the refusal.
pub type Planned = Result<Plan, Refusal>;

// Before the first record: 16 where the count exceeds the lent table, then 8.
fn first_checked(text: &[u8], lent: usize, count: usize) -> Looked
    ensures { result ≡ first_checked text.now lent count }
{
    if lent < count {
        return Err(Refusal {
            number: BAD_NUMBER,
            place: 0,
        });
    }
    if !read_names::is_sound_text(text) {
        return Err(Refusal {
            number: BAD_TEXT,
            place: 0,
        });
    }
    Ok(Checked {
        records: count,
        edition: Edition::First,
        length: HEADERS + text.len(),
        seen: 0,
        seconds: 0,
        reach: 0,
    })
}

// .. with no Cntt laid down.
pub fn begin(text: &[u8], lent: usize, count: usize) -> Taken
    ensures { result ≡ begun text.now lent count }
{
    let checked = first_checked(text, lent, count);
    Taken {
        checked,
        cntts: [0; 32],
    }
}

// The edition that record number i must have, where the first is of this one: it is the first's.
fn edition_due(i: usize, first: Edition, own: Edition) -> Edition
    ensures { result ≡ due i first own }
{
    if i == 0 {
        return own;
    }
    first
}

// The place of record number i, counted by the size of the first.
fn place_of(edition: Edition, i: usize) -> usize
    requires { i < records_never }
    ensures { result ≡ size edition * i }
{
    match edition {
        Edition::First => RECORD * i,
        Edition::Second => SECOND_RECORD * i,
    }
}

// The bytes of a record's chunks: its Ctab, and its Cntt where it has one.
fn chunks_size(edition: Edition, cntts: usize) -> usize
    requires { cntts ≤ 1 }
    ensures { result ≡ chunks_size edition cntts }
{
    8 + size_of(edition) + CNTT_STRIDE * cntts
}

// What a record of an edition has of a second table or a position given: a Ctb2 has none.
fn first_only<T: Copy>(edition: Edition, given: T, none: T) -> T
    ensures { result ≡ first_only edition given none }
{
    match edition {
        Edition::First => given,
        Edition::Second => none,
    }
}

// How many Cntts a record has.
fn cntt_count(second: SecondTable) -> usize
    ensures { result ≡ cntt_count second }
{
    match second {
        None => 0,
        Some(_) => 1,
    }
}

// More Cntts than a group has: what a position that is wrong, however many follow, asks for.
const NEVER: usize = CHANNELS + 1;

// Whether a position is 1 to 16, and nothing is laid down there: no Cntt's value is 0.
fn is_free(cntts: &[u8; 32], position: usize) -> bool
    ensures { result ≡ free cntts.now position }
{
    if position == 0 {
        return false;
    }
    if CHANNELS < position {
        return false;
    }
    cntts[CNTT_BYTES * position - 1] == 0
}

// The Cntt of a record laid down at its position, in place, where that is free.
// Answers how many Cntts there must be for the position to be right.
fn lay_down(cntts: &mut [u8; 32], position: usize, channel: u8, second: SecondTable) -> usize
    ensures { (result ≡ claimed cntts.old position second) × (cntts.new ≡ laid_down cntts.old position channel second) }
{
    match second {
        None => {
            if position == 0 {
                return 0;
            }
            NEVER
        }
        Some(v) => {
            if !is_free(cntts, position) {
                return NEVER;
            }
            let at = CNTT_BYTES * position - CNTT_BYTES;
            cntts[at] = channel;
            cntts[at + 1] = v;
            position
        }
    }
}

// Record number i, of an edition, whose bytes stand at the start of b: another edition than the first's, its first byte out of range, then a source channel that an earlier record has.
// Where it is accepted, its Cntt is laid down at its position. A refusal stays.
fn look_at_known(
    before: Looked,
    i: usize,
    edition: Edition,
    b: &[u8],
    second: SecondTable,
    position: u8,
    cntts: &mut [u8; 32],
) -> Looked
    requires { (held edition ≤ length b.now) × Looking before i }
    ensures { (result ≡ looked cntts.old before i (record_of edition b.now second position)) × (cntts.new ≡ laid_after cntts.old before i (record_of edition b.now second position)) }
{
    let x = before?;
    let due = edition_due(i, x.edition, edition);
    let place = place_of(due, i);
    if due != edition {
        return Err(Refusal {
            number: OTHER_EDITION,
            place,
        });
    }
    let k = first_bad_of(edition, b, second);
    if k < held_of(edition) {
        return Err(Refusal {
            number: OUT_OF_RANGE,
            place: place + k,
        });
    }
    let channel = b[0] as usize;
    if (x.seen >> channel) % 2 == 1 {
        return Err(Refusal {
            number: CHANNEL_AGAIN,
            place,
        });
    }
    let own = first_only(edition, second, None);
    let count = cntt_count(own);
    let at = first_only(edition, position, 0);
    let claim = lay_down(cntts, at as usize, b[0], own);
    Ok(Checked {
        records: x.records,
        edition: due,
        length: x.length + chunks_size(due, count),
        seen: x.seen | 1u64 << channel,
        seconds: x.seconds + count,
        reach: x.reach.max(claim),
    })
}

// The same, the edition told apart here, so that what goes by it is a number for either; a Ctb2 has no Cntt.
// A record is handed over by its parts, and not as a struct of them: only this and the one above take them, and their callers have them apart.
// `Looking` stays a condition: it speaks of the number of the record too, which is no part of what the records before it come to.
pub fn look_at_bytes(
    before: Looked,
    i: usize,
    edition: Edition,
    b: &[u8],
    second: SecondTable,
    position: u8,
    cntts: &mut [u8; 32],
) -> Looked
    requires { (held edition ≤ length b.now) × Looking before i }
    ensures { (result ≡ looked cntts.old before i (record_of edition b.now second position)) × (cntts.new ≡ laid_after cntts.old before i (record_of edition b.now second position)) }
{
    match edition {
        Edition::First => { look_at_known(before, i, Edition::First, b, second, position, cntts) }
        Edition::Second => { look_at_known(before, i, Edition::Second, b, None, 0, cntts) }
    }
}

// Record number i, in memory.
pub fn look_at(x: Taken, i: usize, r: Record) -> Taken
    requires { Looking x.checked i }
    ensures { result ≡ taken x i r }
{
    let b = bytes_of(r);
    let edition = edition_of(r);
    let second = second_of(r);
    let position = position_of(r);
    let before = x.checked;
    let mut cntts = x.cntts;
    let after = look_at_bytes(before, i, edition, &b, second, position, &mut cntts);
    Taken {
        checked: after,
        cntts,
    }
}

// All records looked at: 18 where a position asks for more Cntts than there are, then 14 where the room is smaller than the group.
pub fn plan_for(x: Taken, room: usize) -> Planned
    ensures { result ≡ planned x room }
{
    let c = x.checked?;
    let cntts = x.cntts;
    if c.seconds < c.reach {
        return Err(Refusal {
            number: BAD_POSITIONS,
            place: 0,
        });
    }
    if room < c.length {
        return Err(Refusal {
            number: NO_ROOM,
            place: 0,
        });
    }
    Ok(Plan {
        records: c.records,
        edition: c.edition,
        length: c.length,
        seconds: c.seconds,
        cntts,
    })
}

// The answer of a plan.
pub fn measured(p: Planned) -> Measured
    ensures { result ≡ measured_by p }
{
    match p {
        Ok(plan) => Measured {
            number: 0,
            place: 0,
            length: plan.length,
        },
        Err(why) => Measured {
            number: why.number,
            place: why.place,
            length: 0,
        },
    }
}
