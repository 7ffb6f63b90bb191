// Passes over a lent table of records: what writing them comes to, and their Ctabs one after the other (document 01, "Writing and editing").
// The loops of `c_write` over rows stay beside these: a generic one over where a record comes from would make a record of each row, which was slower (docs/SPEED.md).
ghost use Rattle.std.specs.Prelude.{◌≡◌, ◌≤◌, length, take};
ghost use mathlib.Core.List.{flat_map};
ghost use Rattle.layout.specs.Edit.{replaced};
ghost use Rattle.layout.specs.Group.{ctab_place};
ghost use Rattle.layout.specs.Write.{first_edition, ctab_bytes};
ghost use Rattle.write_plan.specs.Checking.{OneEdition, plan_of};

use layout::record::Record;
use write_chunks::places::put_record;
use write_plan::{Planned, begin, look_at, plan_for};

// What writing a text and the first records of a lent table comes to: each record is looked at once.
pub fn plan_group(text: &[u8], table: &[Record], count: usize, room: usize) -> Planned
    ensures { result ≡ plan_of text.now table.now count room }
{
    let mut x = begin(text, table.len(), count);
    let n = x.checked?.records;
    for i in 0..n {
        let r = table[i];
        x = look_at(x, i, r);
    }
    plan_for(x, room)
}

// The Ctabs of the first n records, which are of one edition, one after the other from `at` on.
pub fn put_ctabs(table: &[Record], n: usize, out: &mut [u8], at: usize)
    requires { (n ≤ length table.now) × (OneEdition (first_edition table.now) table.now n × (ctab_place (first_edition table.now) at n ≤ length out.old)) }
    ensures { out.new ≡ replaced out.old at (flat_map ctab_bytes (take n table.now)) }
{
    for i in 0..n {
        let r = table[i];
        put_record(out, at, i, r);
    }
}
