// The editing screen: one field byte of a record set, by value and in place.
ghost use Rattle.std.specs.Prelude.{◌≡◌};
ghost use Rattle.layout.specs.Promises.{FieldSet, FieldSetInPlace};

use layout::answer::{Answered, Changed};
use layout::record::Record;

// The record with one field byte set, all other fields kept; on refusal the record as it was. Of a record that is read only its byte 10 alone is set.
pub fn set_field(r: Record, index: usize, value: u8) -> Changed
    ensures { FieldSet r index value result }
{
    write_field::set_field(r, index, value)
}

// The answer alone.
fn answer_of(c: Changed) -> Answered
    ensures { (result.number ≡ c.number) × (result.place ≡ c.place) }
{
    Answered {
        number: c.number,
        place: c.place,
    }
}

// Sets one field byte of a lent record, all other fields kept; on refusal the record is as it was. The setter by value does the work.
pub fn set_in_place(r: &mut Record, index: usize, value: u8) -> Answered
    ensures { FieldSetInPlace r.old index value result r.new }
{
    let old = *r;
    let changed = set_field(old, index, value);
    *r = changed.held;
    answer_of(changed)
}
