// A group's records laid into a flat table, 51 bytes each. They are read one at a time: no table of them is made.
#![tactic(auto)]

ghost use Rattle.std.specs.Prelude.{◌≡◌, ◌≤◌, ◌++◌, length, drop};
ghost use Rattle.c_row.specs.Flat.{row_size, row_bytes, RowsRead};

use c_row::flat::row_count;
use c_row::row::row_bytes;
use layout::answer::Counted;
use layout::record::Record;
use layout::size::ROW;
use read_table::{counted, plan_records, record_at};

// Writes a record's row at the start of what is lent.
fn put_row(out: &mut [u8], r: Record)
    requires { row_size ≤ length out.old }
    ensures { out.new ≡ row_bytes r ++ drop row_size out.old }
{
    let b = row_bytes(r);
    write_chunks::put::put_bytes(out, &b);
}

// Fills a lent flat table with the records of a group, up to their count, and answers how many there are; later bytes are kept.
// All that can be refused is in the plan: where there is none, nothing is laid.
pub fn read_rows(s: &[u8], group: usize, flat: &mut [u8]) -> Counted
    ensures { RowsRead s.now group flat.old result flat.new }
{
    let plan = plan_records(s, group, row_count(flat.len()));
    if let Ok(reading) = plan {
        for i in 0..reading.count {
            let at = ROW * i;
            put_row(&mut flat[at..], record_at(s, reading, i));
        }
    }
    counted(plan)
}
