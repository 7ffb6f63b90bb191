// The one table of ranges of each edition, for reader, writer and screen, and the values of a Cntt (document 01, "The CASM body").
#![tactic(auto)]

pub mod columns;
pub mod ctab;
pub mod ctb2;

ghost use Rattle.std.specs.Prelude.{◌≡◌, ◌+◌, ◌≤◌, ◌<◌, length};
ghost use Rattle.layout.specs.Editions.{size, held};
ghost use Rattle.layout.specs.Ranges.{out_of, first_out, cntt_value};

use crate::ctab::{first_out_ctab, is_out_ctab};
use crate::ctb2::{first_out_ctb2, is_out_ctb2};
use layout::edition::Edition;
use layout::size::{HELD, RECORD};

// The first byte of the record of an edition at `at` that is out of its range, or its size where none is: a number and no Option, as `first_out` and its theorems count.
// How many bytes are looked at is a number of the edition: passed on, it would keep the table from being folded into the loop (docs/SPEED.md).
pub fn first_out(edition: Edition, s: &[u8], at: usize) -> usize
    requires { at + size edition ≤ length s.now }
    ensures { result ≡ first_out edition s.now at (size edition) }
{
    match edition {
        Edition::First => first_out_ctab(s, at, RECORD),
        Edition::Second => first_out_ctb2(s, at),
    }
}

// The same of the bytes that are held in memory, at the start of b: their count is a number here, too.
pub fn first_out_held(edition: Edition, b: &[u8]) -> usize
    requires { held edition ≤ length b.now }
    ensures { result ≡ first_out edition b.now 0 (held edition) }
{
    match edition {
        Edition::First => first_out_ctab(b, 0, HELD),
        Edition::Second => first_out_ctb2(b, 0),
    }
}

// Whether a value is out of the range of byte k, which stands behind the byte `rule`.
pub fn is_out(edition: Edition, k: usize, rule: u8, v: u8) -> bool
    requires { k < size edition }
    ensures { result ≡ out_of edition k rule v }
{
    match edition {
        Edition::First => is_out_ctab(k, rule, v),
        Edition::Second => is_out_ctb2(k, rule, v),
    }
}

// Whether a Cntt may have this table value: 04, 06 to 0A, 80 to 8A.
#[tactic(auto, unfolding(layout::specs::Ranges::cntt_value, layout::specs::Ranges::inside))]
pub fn is_cntt_value(v: usize) -> bool
    ensures { result ≡ cntt_value v }
{
    matches!(v, 0x04 | 0x06..=0x0A | 0x80..=0x8A)
}
