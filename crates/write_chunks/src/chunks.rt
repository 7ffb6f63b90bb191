// The chunk writers: each writes at the start of what it is lent and lends on the tail behind its header.
ghost use Rattle.std.specs.Prelude.{◌≡◌, ◌++◌, ◌+◌, ◌≤◌, length, drop};
ghost use Rattle.layout.specs.Bytes.{CSEG as CSEGTAG, Sdec, four, chunk};
ghost use Rattle.layout.specs.Records.{Value};
ghost use Rattle.layout.specs.Editions.{tag_of, size, held, closing};
ghost use Rattle.layout.specs.Write.{cntt_bytes};

use crate::put::{put_bytes, put_head, put_held};
use layout::edition::Edition;
use layout::size::CNTT_BYTES;
use layout::tag::{CNTT, CSEG, SDEC};
use read_record::edition::{size_of, tag_of};

// An Sdec: its text behind its header.
fn put_sdec(out: &mut [u8], text: &[u8])
    requires { 8 + length text.now ≤ length out.old }
    ensures { out.new ≡ chunk Sdec text.now ++ drop (8 + length text.now) out.old }
{
    put_head(out, SDEC, text.len());
    put_bytes(&mut out[8..], text);
}

// A group's header, for a payload of `size` bytes, and the Sdec in what is left.
pub fn put_front(out: &mut [u8], text: &[u8], size: usize)
    requires { 16 + length text.now ≤ length out.old }
    ensures { out.new ≡ CSEGTAG ++ (four size ++ (chunk Sdec text.now ++ drop (16 + length text.now) out.old)) }
{
    put_head(out, CSEG, size);
    put_sdec(&mut out[8..], text);
}

// A Ctab: a record behind its header, from the bytes of it that are held.
pub fn put_ctab(edition: Edition, out: &mut [u8], b: &[u8])
    requires { (length b.now ≡ held edition) × (8 + size edition ≤ length out.old) }
    ensures { out.new ≡ chunk (tag_of edition) (b.now ++ closing edition) ++ drop (8 + size edition) out.old }
{
    // The record first: where nothing is stored between the bytes taken from a row and the bytes put, they go over in one step.
    put_held(edition, &mut out[8..], b);
    put_head(out, tag_of(edition), size_of(edition));
}

// A Cntt: a source channel and a table value behind its header.
pub fn put_cntt(out: &mut [u8], channel: u8, v: u8)
    requires { 10 ≤ length out.old }
    ensures { out.new ≡ cntt_bytes channel (Value v) ++ drop 10 out.old }
{
    put_head(out, CNTT, CNTT_BYTES);
    out[8] = channel;
    out[9] = v;
}
