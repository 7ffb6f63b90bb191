// What chunks are made of: bytes, a header, a record. Each writer writes at the start of what it is lent.
// An edition and the bytes held of a record are two parameters here and above: callers have them apart, and `put_ctab(edition, out, b)` would be `put_ctab(Held { edition: edition, bytes: b }, out)`.
ghost use Rattle.std.specs.Prelude.{◌≡◌, ◌++◌, ◌≤◌, length, drop};
ghost use Rattle.layout.specs.Bytes.{four};
ghost use Rattle.layout.specs.Editions.{size, held, closing};

use layout::edition::Edition;
use layout::size::HELD;

// These bytes, one after the other: `copy_from_slice` makes the archive for C ask for memcpy and memmove, which a handheld may not have.
pub fn put_bytes(out: &mut [u8], b: &[u8])
    requires { length b.now ≤ length out.old }
    ensures { out.new ≡ b.now ++ drop (length b.now) out.old }
{
    for i in 0..b.len() {
        out[i] = b[i];
    }
}

// A chunk's header: four tag bytes and a length, high byte first.
pub fn put_head(out: &mut [u8], tag: usize, size: usize)
    requires { 8 ≤ length out.old }
    ensures { out.new ≡ four tag ++ (four size ++ drop 8 out.old) }
{
    out[0] = (tag / 16777216 % 256) as u8;
    out[1] = (tag / 65536 % 256) as u8;
    out[2] = (tag / 256 % 256) as u8;
    out[3] = (tag % 256) as u8;
    out[4] = (size / 16777216 % 256) as u8;
    out[5] = (size / 65536 % 256) as u8;
    out[6] = (size / 256 % 256) as u8;
    out[7] = (size % 256) as u8;
}

// The bytes of a record in the file from those held; byte 26 of the first edition is always written as 00.
pub fn put_held(edition: Edition, out: &mut [u8], b: &[u8])
    requires { (length b.now ≡ held edition) × (size edition ≤ length out.old) }
    ensures { out.new ≡ b.now ++ (closing edition ++ drop (size edition) out.old) }
{
    put_bytes(out, b);
    match edition {
        Edition::First => {
            out[HELD] = 0;
        }
        Edition::Second => {}
    }
}
