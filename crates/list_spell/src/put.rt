// Bytes and numbers put at a place of a lent buffer; each function answers the place behind what it put. Buffer and place stay apart, with no writer that holds both:
// `FileListed`, the promise of `list_text::list_file`, speaks of the buffer before and after, and of the length as the answer.
ghost use Rattle.std.specs.Prelude.{◌+◌, ◌≤◌, length};
ghost use Rattle.layout.specs.Listing.{decimal, spaced};
ghost use Rattle.list_spell.specs.Puts.{Put};

// These bytes.
pub fn put_bytes(out: &mut [u8], at: usize, b: &[u8]) -> usize
    requires { at + length b.now ≤ length out.old }
    ensures { Put out.old at b.now result out.new }
{
    let behind = at + b.len();
    out[at..behind].copy_from_slice(b);
    behind
}

// A number in decimal: twenty digits at most.
pub fn put_number(out: &mut [u8], at: usize, n: usize) -> usize
    requires { at + 20 ≤ length out.old }
    ensures put { Put out.old at (decimal n) result out.new }
    ensures upper_bound { result ≤ at + 20 }
{
    let mut digits = [0u8; 20];
    let count = io::decimal(n as u64, &mut digits);
    put_bytes(out, at, &digits[..count])
}

// A space and a number.
pub fn put_spaced(out: &mut [u8], at: usize, n: usize) -> usize
    requires { at + 21 ≤ length out.old }
    ensures put { Put out.old at (spaced n) result out.new }
    ensures upper_bound { result ≤ at + 21 }
{
    let behind = put_bytes(out, at, b" ");
    put_number(out, behind, n)
}
