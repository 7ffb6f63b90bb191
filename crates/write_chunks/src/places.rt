// Chunks at their places: one Ctab stands behind the other by the size of its edition, one Cntt 10 bytes.
ghost use Rattle.std.specs.Prelude.{◌≡◌, ◌++◌, ◌+◌, ◌*◌, ◌≤◌, length};
ghost use Rattle.layout.specs.Bytes.{chunk};
ghost use Rattle.layout.specs.Edit.{replaced};
ghost use Rattle.layout.specs.Editions.{tag_of, size, held, closing};
ghost use Rattle.layout.specs.Group.{ctab_place};
ghost use Rattle.layout.specs.Records.{edition_of};
ghost use Rattle.layout.specs.Write.{ctab_bytes};
ghost use Rattle.write_plan.specs.Chunks.{cntts_down};

use crate::chunks::{put_cntt, put_ctab};
use layout::edition::Edition;
use layout::record::Record;
use layout::size::{CNTT_BYTES, CNTT_STRIDE};
use read_record::bytes::bytes_of;
use read_record::edition::{ctab_place, held_of};
use read_record::held::edition_of;

// Ctab number i of those from `at` on, from the bytes of its record that are held.
pub fn put_ctab_at(edition: Edition, out: &mut [u8], at: usize, i: usize, b: &[u8])
    requires { (length b.now ≡ held edition) × (ctab_place edition at i + (8 + size edition) ≤ length out.old) }
    ensures { out.new ≡ replaced out.old (ctab_place edition at i) (chunk (tag_of edition) (b.now ++ closing edition)) }
{
    let to = ctab_place(edition, out, at, i);
    put_ctab(edition, &mut out[to..], b);
}

// .. and of a record in memory.
pub fn put_record(out: &mut [u8], at: usize, i: usize, r: Record)
    requires { ctab_place (edition_of r) at i + (8 + size (edition_of r)) ≤ length out.old }
    ensures { out.new ≡ replaced out.old (ctab_place (edition_of r) at i) (ctab_bytes r) }
{
    let edition = edition_of(r);
    let n = held_of(edition);
    let b = bytes_of(r);
    put_ctab_at(edition, out, at, i, &b[..n]);
}

// The first n Cntts of those laid down, from `at` on.
pub fn put_cntts(out: &mut [u8], at: usize, cntts: [u8; 32], n: usize)
    requires { (n ≤ 16) × (at + 10 * n ≤ length out.old) }
    ensures { out.new ≡ replaced out.old at (cntts_down cntts n) }
{
    for k in 0..n {
        let from = CNTT_BYTES * k;
        let to = at + CNTT_STRIDE * k;
        put_cntt(&mut out[to..], cntts[from], cntts[from + 1]);
    }
}
