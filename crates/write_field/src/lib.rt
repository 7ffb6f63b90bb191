// The editing screen (document 01, "Writing and editing"; document 02, §4 and §6): one field byte of a record set, all other fields kept.
#![tactic(auto)]

ghost use Rattle.std.specs.Prelude.{◌≡◌, not, ◌&&◌, eqb};
ghost use Rattle.layout.specs.Lock.{lock_byte, locks};
ghost use Rattle.layout.specs.Promises.{FieldSet};

use layout::answer::Changed;
use layout::lock::{LOCK, LOCKED};
use layout::record::Record;
use layout::refusal::{BAD_NUMBER, OUT_OF_RANGE, READ_ONLY};
use read_ranges::columns::rule_before;
use read_ranges::is_out;
use read_record::bytes::bytes_of;
use read_record::edition::held_of;
use read_record::held::{edition_of, position_of, second_of};
use read_record::made::record_of;

// Whether a byte of a record with this byte 10 stays as it is: the lock itself can always be set.
fn is_kept(index: usize, lock: u8) -> bool
    ensures { result ≡ not (eqb index lock_byte) && locks lock }
{
    if index == LOCK {
        return false;
    }
    lock == LOCKED
}

// The record with one byte set; the Cntt and its position are kept. Of a locked record the lock alone is set.
// The answer is `Changed`, which the promise and C have: a Result inside would only be made into it again, by `Err(why) => Changed { number: why.number, place: why.place, held: r }`.
pub fn set_field(r: Record, index: usize, value: u8) -> Changed
    ensures { FieldSet r index value result }
{
    let edition = edition_of(r);
    let end = held_of(edition);
    if end <= index {
        return Changed {
            number: BAD_NUMBER,
            place: 0,
            held: r,
        };
    }
    if is_kept(index, r.locked) {
        return Changed {
            number: READ_ONLY,
            place: LOCK,
            held: r,
        };
    }
    let mut b = bytes_of(r);
    // A table is judged by the rule that the record then has.
    let rule = rule_before(&b, 0, index);
    if is_out(edition, index, rule, value) {
        return Changed {
            number: OUT_OF_RANGE,
            place: index,
            held: r,
        };
    }
    let second = second_of(r);
    let position = position_of(r);
    b[index] = value;
    let held = record_of(edition, &b[..end], second, position);
    Changed {
        number: 0,
        place: 0,
        held,
    }
}
