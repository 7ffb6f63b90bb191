// A group's records, one by one (document 01, "The CASM body"): what reading them comes to, and record number i by value. Filling a lent table is `filled`'s.
#![tactic(auto)]

pub mod filled;

ghost use Rattle.std.specs.Prelude.{◌≡◌, ◌+◌, ◌*◌, ◌≤◌, length};
ghost use Rattle.layout.specs.Group.{ctab_place, second_of, position_of, record_at};
ghost use Rattle.read_table.specs.Reading.{told_of, ReadingPlanned};

use layout::answer::Counted;
use layout::edition::Edition;
use layout::record::{Record, SecondTable};
use layout::refusal::NO_ROOM;
use layout::size::CNTT_STRIDE;
use layout::turn::Refusal;
use read_record::edition::{ctab_place, held_of};
use read_record::made::record_of;

// How a group's records are read: how many there are, their edition, and where the group's Ctabs and Cntts begin in the body.
#[derive(Clone, Copy)]
pub struct Reading {
    pub count: usize,
    pub edition: Edition,
    pub ctabs: usize,
    pub cntts: usize,
    pub seconds: usize,
}

// The plan for reading the records of a group into so much room; room (14) comes last.
pub fn plan_records(s: &[u8], group: usize, room: usize) -> Result<Reading, Refusal>
    ensures { ReadingPlanned s.now group room result }
{
    let x = read_find::asked_group(s, group)?.standing;
    if room < x.records {
        return Err(Refusal {
            number: NO_ROOM,
            place: 0,
        });
    }
    Ok(Reading {
        count: x.records,
        edition: x.edition,
        ctabs: x.ctabs,
        cntts: x.cntts,
        seconds: x.seconds,
    })
}

// The second table of a source channel and its position, counted from 1: its Cntt is looked for among those from `cntts` on. Absent, and 0, where it has none.
fn second_of(s: &[u8], cntts: usize, seconds: usize, channel: u8) -> (SecondTable, u8)
    requires { (cntts + 10 * seconds ≤ length s.now) × (seconds ≤ 16) }
    ensures second { result.0 ≡ second_of s.now cntts seconds channel }
    ensures position { result.1 ≡ position_of s.now cntts seconds channel }
{
    for j in 0..seconds {
        let at = cntts + CNTT_STRIDE * j;
        if s[at + 8] == channel {
            return (Some(s[at + 9]), (j + 1) as u8);
        }
    }
    (None, 0)
}

// Record number i of a plan: the bytes held of its Ctab where they stand, and its Cntt with its position.
pub fn record_at(s: &[u8], plan: Reading, i: usize) -> Record
    requires { (ctab_place plan.edition plan.ctabs (i + 1) ≤ length s.now) × ((plan.cntts + 10 * plan.seconds ≤ length s.now) × (plan.seconds ≤ 16)) }
    ensures { result ≡ record_at plan.edition s.now plan.ctabs plan.cntts plan.seconds i }
{
    let edition = plan.edition;
    let at = ctab_place(edition, s, plan.ctabs, i) + 8;
    let (second, position) = second_of(s, plan.cntts, plan.seconds, s[at]);
    record_of(edition, &s[at..at + held_of(edition)], second, position)
}

// The answer of a plan.
pub fn counted(plan: Result<Reading, Refusal>) -> Counted
    ensures { result ≡ told_of plan }
{
    match plan {
        Ok(reading) => Counted {
            number: 0,
            place: 0,
            count: reading.count,
        },
        Err(why) => Counted {
            number: why.number,
            place: why.place,
            count: 0,
        },
    }
}
