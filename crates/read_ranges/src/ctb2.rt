// The table of ranges of a Ctb2, column by column (001, 1.2; document 02, §4).
ghost use Rattle.std.specs.Prelude.{◌≡◌, ◌+◌, ◌≤◌, ◌<◌, length};
ghost use Rattle.layout.specs.declared.edition.Edition.TheVariants.{Second};
ghost use Rattle.layout.specs.Editions.{size};
ghost use Rattle.layout.specs.Ranges.{out_of, first_out};

use crate::columns::{first_out_part, is_out_by};
use layout::size::SECOND_RECORD;

// The lowest and the highest value of each byte, and which bytes are tables, judged by the rule before them, too.
const CTB2_LOWEST: [u8; SECOND_RECORD] = [
    0x00, 0x00, 0x00, 0x00, 0x00, 0x00, 0x00, 0x00, 0x00, 0x08, 0x00, 0x00, 0x00, 0x00, 0x00, 0x00,
    0x00, 0x00, 0x00, 0x00, 0x00, 0x00, 0x00, 0x00, 0x00, 0x00, 0x00, 0x00, 0x00, 0x00, 0x00, 0x00,
    0x00, 0x00, 0x00, 0x00, 0x00, 0x00, 0x00, 0x00, 0x00, 0x00, 0x00, 0x00, 0x00, 0x00, 0x00,
];

const CTB2_HIGHEST: [u8; SECOND_RECORD] = [
    0x0F, 0xFF, 0xFF, 0xFF, 0xFF, 0xFF, 0xFF, 0xFF, 0xFF, 0x0F, 0x01, 0x0F, 0xFF, 0x07, 0xFF, 0xFF,
    0xFF, 0xFF, 0x0B, 0x21, 0x7F, 0x7F, 0x02, 0x8A, 0x0B, 0x7F, 0x7F, 0x05, 0x02, 0x8A, 0x0B, 0x7F,
    0x7F, 0x05, 0x02, 0x8A, 0x0B, 0x7F, 0x7F, 0x05, 0xFF, 0xFF, 0xFF, 0xFF, 0xFF, 0xFF, 0xFF, // 46: kept, whatever it holds
];

const CTB2_RULED: [bool; SECOND_RECORD] = [
    false, false, false, false, false, false, false, false, false, false, false, false, false,
    false, false, false, false, false, false, false, false, false, false, true, false, false,
    false, false, false, true, false, false, false, false, false, true, false, false, false, false,
    false, false, false, false, false, false, false,
];

// The first byte of the Ctb2 at `at` that is out of its range, or 47 where none is.
// The columns are copied before they are gone over: indexed where they stand they would be built anew at each turn.
pub fn first_out_ctb2(s: &[u8], at: usize) -> usize
    requires { at + size Second ≤ length s.now }
    ensures { result ≡ first_out Second s.now at (size Second) }
{
    let low = CTB2_LOWEST;
    let high = CTB2_HIGHEST;
    let ruled = CTB2_RULED;
    let a = first_out_part(&low, &high, &ruled, s, at, 0, 12);
    if a < 12 {
        return a;
    }
    let b = first_out_part(&low, &high, &ruled, s, at, 12, 24);
    if b < 24 {
        return b;
    }
    let c = first_out_part(&low, &high, &ruled, s, at, 24, 36);
    if c < 36 {
        return c;
    }
    first_out_part(&low, &high, &ruled, s, at, 36, SECOND_RECORD)
}

// Whether a value is out of the range of byte k of a Ctb2, which stands behind the byte `rule`.
pub fn is_out_ctb2(k: usize, rule: u8, v: u8) -> bool
    requires { k < size Second }
    ensures { result ≡ out_of Second k rule v }
{
    let low = CTB2_LOWEST;
    let high = CTB2_HIGHEST;
    let ruled = CTB2_RULED;
    is_out_by(&low, &high, &ruled, k, rule, v)
}
