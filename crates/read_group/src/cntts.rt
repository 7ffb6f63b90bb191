// The run of Cntts, after the Ctabs, in any order. Whether a Ctab or an earlier Cntt has its channel is looked up in tables.
ghost use Rattle.std.specs.Prelude.{◌≡◌, ◌+◌, ◌*◌, ◌≤◌, length};
ghost use Rattle.layout.specs.declared.edition.Edition.TheVariants.{First};
ghost use Rattle.layout.specs.Group.{ctab_place, ctab_channel, cntt_channel, cntt_turn, cntts_of};
ghost use Rattle.read_bytes.specs.Heads.{headed};
ghost use Rattle.read_group.specs.Seen.{Seen, channel_fault};

use layout::limit::CHANNELS;
use layout::refusal::{BAD_SIZE, CHANNEL_AGAIN, OUT_OF_RANGE, STRAY_CNTT};
use layout::size::{CNTT_BYTES, CNTT_STRIDE, CTAB_STRIDE};
use layout::tag::CNTT;
use layout::turn::{Met, Refusal, Run, Turn};

// The refusal of a Cntt at `at` by whether a Ctab has its channel and whether a Cntt before it has.
fn check_channel(at: usize, ctab: bool, again: bool) -> Result<(), Refusal>
    ensures { result ≡ headed (channel_fault ctab again) at }
{
    if again {
        return Err(Refusal {
            number: CHANNEL_AGAIN,
            place: at,
        });
    }
    if !ctab {
        return Err(Refusal {
            number: STRAY_CNTT,
            place: at,
        });
    }
    Ok(())
}

// Cntt number j, after n Ctabs from p on.
fn cntt_turn(
    c: &[u8],
    p: usize,
    n: usize,
    j: usize,
    ctabs: &[bool; CHANNELS],
    seen: &[bool; CHANNELS],
) -> Turn
    requires { (ctab_place First p n + 10 * j ≤ length c.now) × (Seen (ctab_channel First c.now p) n ctabs.now × Seen (cntt_channel c.now (ctab_place First p n)) j seen.now) }
    ensures { result ≡ cntt_turn c.now p n (ctab_place First p n) j }
{
    let at = p + CTAB_STRIDE * n + CNTT_STRIDE * j;
    if at == c.len() {
        return Ok(Met::End);
    }
    read_bytes::check_head(c, at, CNTT)?;
    if read_bytes::word_at(c, at + 4) != CNTT_BYTES {
        return Err(Refusal {
            number: BAD_SIZE,
            place: at,
        });
    }
    let channel = read_bytes::byte(c, at + 8);
    if 15 < channel {
        return Err(Refusal {
            number: OUT_OF_RANGE,
            place: at + 8,
        });
    }
    if !read_ranges::is_cntt_value(read_bytes::byte(c, at + 9)) {
        return Err(Refusal {
            number: OUT_OF_RANGE,
            place: at + 9,
        });
    }
    check_channel(at, ctabs[channel], seen[channel])?;
    Ok(Met::Chunk)
}

// The Cntts after n Ctabs from p on: how many.
pub fn read_cntts(c: &[u8], p: usize, n: usize, ctabs: &[bool; CHANNELS]) -> Run
    requires { (ctab_place First p n ≤ length c.now) × Seen (ctab_channel First c.now p) n ctabs.now }
    ensures { result ≡ cntts_of c.now p n }
{
    let mut seen = [false; CHANNELS];
    let mut j = 0;
    while let Met::Chunk = cntt_turn(c, p, n, j, ctabs, &seen)? {
        let channel = read_bytes::byte(c, p + CTAB_STRIDE * n + CNTT_STRIDE * j + 8);
        seen[channel] = true;
        j += 1;
    }
    Ok(j)
}
