// The lent forms of the face by value, so that a program that uses them stays covered: the table or the record in, and the same with the answer out.
#![tactic(auto)]

pub mod write;

ghost use Rattle.std.specs.Prelude.{◌≡◌, min, take, drop};
ghost use Rattle.layout.specs.Promises.{RecordsRead, FieldSet};

use layout::answer::{Answered, Changed, Counted};
use layout::record::Record;

// A table after it was lent, and the answer of the call that it was lent to.
#[derive(Clone, Copy)]
pub struct Filled {
    pub table: [Record; 32],
    pub answer: Counted,
}

// How many records of a table of 32 are lent where so much room is asked for.
pub(crate) fn lent_of(room: usize) -> usize
    ensures { result ≡ min room 32 }
{
    room.min(32)
}

// The two side by side.
fn both(table: [Record; 32], answer: Counted) -> Filled
    ensures { (result.table ≡ table) × (result.answer ≡ answer) }
{
    Filled { table, answer }
}

// A group's records read into the first `room` records of a copy of a table; where `room` is above 32, all are lent.
pub fn read_with_room(s: &[u8], group: usize, start: [Record; 32], room: usize) -> Filled
    ensures { RecordsRead s.now group (take room start) result.answer (take room result.table) × (drop room result.table ≡ drop room start) }
{
    let mut t = start;
    let n = lent_of(room);
    let answer = casm::records::read_records(s, group, &mut t[..n]);
    both(t, answer)
}

// The answer and the record side by side.
fn changed_of(answer: Answered, held: Record) -> Changed
    ensures { ((result.number ≡ answer.number) × (result.place ≡ answer.place)) × (result.held ≡ held) }
{
    Changed {
        number: answer.number,
        place: answer.place,
        held,
    }
}

// One field byte of a copy of a record set in place.
pub fn set_with(r: Record, index: usize, value: u8) -> Changed
    ensures { FieldSet r index value result }
{
    let mut held = r;
    let answer = casm::field::set_in_place(&mut held, index, value);
    changed_of(answer, held)
}
