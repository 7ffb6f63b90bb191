// A group written from a lent table (document 01, "Writing and editing": "writing puts one group at the start of a lent buffer").
#![tactic(auto)]

pub mod lent;

ghost use Rattle.layout.specs.Promises.{GroupWritten};
ghost use Rattle.write_plan.specs.Checking.{measured_by};

use crate::lent::{plan_group, put_ctabs};
use layout::answer::Measured;
use layout::record::Record;
use write_chunks::start::put_frame;
use write_plan::{Planned, measured};

// The plan, carried out where it does not refuse.
fn put_group(text: &[u8], table: &[Record], count: usize, out: &mut [u8]) -> Planned
    ensures { GroupWritten text.now table.now count out.old (measured_by result) out.new }
{
    let plan = plan_group(text, table, count, out.len())?;
    let at = put_frame(out, text, Ok(plan));
    put_ctabs(table, plan.records, out, at);
    Ok(plan)
}

// Writes one group at the start of a lent buffer, from its Sdec's text and the first `count` records of a lent table; answers its length.
// Later bytes are unchanged; on refusal nothing is touched.
pub fn write_group(text: &[u8], table: &[Record], count: usize, out: &mut [u8]) -> Measured
    ensures { GroupWritten text.now table.now count out.old result out.new }
{
    measured(put_group(text, table, count, out))
}
