// A group written from a table of records that is passed by value: any number of its records can be lent (document 01, "Writing and editing").
ghost use Rattle.std.specs.Prelude.{take};
ghost use Rattle.layout.specs.Promises.{GroupWritten};

use crate::lent_of;
use layout::answer::Measured;
use layout::record::Record;

// A group written from a text and the first `count` of a lent table, which is the first `lent` records; where `lent` is above 32, all are lent.
pub fn write_with(
    text: &[u8],
    records: [Record; 32],
    lent: usize,
    count: usize,
    out: &mut [u8],
) -> Measured
    ensures { GroupWritten text.now (take lent records) count out.old result out.new }
{
    let k = lent_of(lent);
    casm::writing::write_group(text, &records[..k], count, out)
}
