// The table of ranges of a Ctab, column by column (001, 1.1).
ghost use Rattle.std.specs.Prelude.{◌≡◌, ◌+◌, ◌≤◌, ◌<◌, length};
ghost use Rattle.layout.specs.declared.edition.Edition.TheVariants.{First};
ghost use Rattle.layout.specs.Editions.{size};
ghost use Rattle.layout.specs.Ranges.{out_of, first_out};

use crate::columns::{first_out_part, is_out_by};
use layout::size::RECORD;

// The lowest and the highest value of each byte of a Ctab; no byte is judged by the one before it.
const CTAB_LOWEST: [u8; RECORD] = [
    0x00, 0x00, 0x00, 0x00, 0x00, 0x00, 0x00, 0x00, 0x00, 0x08, 0x00, 0x00, 0x00, 0x00, 0x00, 0x00,
    0x00, 0x00, 0x00, 0x00, 0x00, 0x00, 0x00, 0x00, 0x00, 0x00, 0x00,
];

const CTAB_HIGHEST: [u8; RECORD] = [
    0x0F, 0xFF, 0xFF, 0xFF, 0xFF, 0xFF, 0xFF, 0xFF, 0xFF, 0x0F, 0x01, 0x0F, 0xFF, 0x07, 0xFF, 0xFF,
    0xFF, 0xFF, 0x0B, 0x21, 0x01, 0x05, 0x0B, 0x7F, 0x7F, 0x05, 0x00,
];

const CTAB_RULED: [bool; RECORD] = [
    false, false, false, false, false, false, false, false, false, false, false, false, false,
    false, false, false, false, false, false, false, false, false, false, false, false, false,
    false,
];

// The first of the n bytes of the Ctab at `at` that is out of its range, or n where none is: in memory its last byte is not held.
pub fn first_out_ctab(s: &[u8], at: usize, n: usize) -> usize
    requires { (13 ≤ n) × ((n ≤ size First) × (at + n ≤ length s.now)) }
    ensures { result ≡ first_out First s.now at n }
{
    let low = CTAB_LOWEST;
    let high = CTAB_HIGHEST;
    let ruled = CTAB_RULED;
    let a = first_out_part(&low, &high, &ruled, s, at, 0, 13);
    if a < 13 {
        return a;
    }
    first_out_part(&low, &high, &ruled, s, at, 13, n)
}

// Whether a value is out of the range of byte k of a Ctab. (What it shares with a Ctb2 is `is_out_by`: only the columns that are lent are its own.)
pub fn is_out_ctab(k: usize, rule: u8, v: u8) -> bool
    requires { k < size First }
    ensures { result ≡ out_of First k rule v }
{
    let low = CTAB_LOWEST;
    let high = CTAB_HIGHEST;
    let ruled = CTAB_RULED;
    is_out_by(&low, &high, &ruled, k, rule, v)
}
