// A lent table filled with a group's records (document 01, "The CASM body": "a group's records are read into a lent table of channel records").
ghost use Rattle.layout.specs.Promises.{RecordsRead};

use layout::answer::Counted;
use layout::record::Record;

// Fills a lent table with the records of a group, up to their count, and answers how many there are; later records of the table are kept.
// All that can be refused is in the plan: where there is none, nothing is stored.
pub fn read_records(s: &[u8], group: usize, table: &mut [Record]) -> Counted
    ensures { RecordsRead s.now group table.old result table.new }
{
    let plan = crate::plan_records(s, group, table.len());
    if let Ok(reading) = plan {
        for i in 0..reading.count {
            table[i] = crate::record_at(s, reading, i);
        }
    }
    crate::counted(plan)
}
