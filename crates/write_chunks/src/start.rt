// What a group's plan writes without its records.
ghost use Rattle.std.specs.Prelude.{◌≡◌, ◌+◌, ◌*◌, ◌≤◌, length, Ok};
ghost use Rattle.layout.specs.Edit.{replaced};
ghost use Rattle.layout.specs.Group.{ctab_place};
ghost use Rattle.write_plan.specs.Checking.{start_place, start_bytes};
ghost use Rattle.write_plan.specs.Chunks.{framed};
ghost use Rattle.write_plan.specs.declared.Plan.{Plan};

use crate::chunks::put_front;
use crate::places::put_cntts;
use layout::size::HEADERS;
use read_record::edition::ctab_place;
use write_plan::{Plan, Planned};

// The group's header and its Sdec at the start of the buffer, and the place behind them.
fn put_start(out: &mut [u8], text: &[u8], p: Plan) -> usize
    requires { (16 + length text.now ≤ p.length) × (p.length ≤ length out.old) }
    ensures { (result ≡ start_place text.now (Ok p)) × (out.new ≡ replaced out.old 0 (start_bytes text.now (Ok p))) }
{
    put_front(out, text, p.length - 8);
    HEADERS + text.len()
}

// The group's start, and its Cntts behind the room of its Ctabs. Answers the place of the Ctabs. A plan that refuses writes nothing.
pub fn put_frame(out: &mut [u8], text: &[u8], plan: Planned) -> usize
    requires { (p : Plan) → plan ≡ Ok p → ((16 + length text.now ≤ p.length) × (p.length ≤ length out.old)) × ((ctab_place p.edition (start_place text.now plan) p.records + 10 * p.seconds ≤ length out.old) × (p.seconds ≤ 16)) }
    ensures { (result ≡ start_place text.now plan) × (out.new ≡ framed text.now plan out.old) }
{
    let Ok(p) = plan else {
        return 0;
    };
    let at = put_start(out, text, p);
    let cntts = p.cntts;
    let to = ctab_place(p.edition, out, at, p.records);
    put_cntts(out, to, cntts, p.seconds);
    at
}
