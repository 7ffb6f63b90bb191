// The run of Ctabs. Which source channels they have is kept in a table, so that no Ctab is looked at twice.
ghost use Rattle.std.specs.Prelude.{◌≡◌, ◌+◌, ◌*◌, ◌≤◌, length};
ghost use Rattle.layout.specs.Group.{ctabs_over, ctab_place, ctab_channel, ctab_turn};
ghost use Rattle.read_group.specs.Seen.{Seen};
ghost use Rattle.read_group.specs.Read.{CtabsRead};

use layout::edition::Edition;
use layout::limit::CHANNELS;
use layout::refusal::{BAD_SIZE, CHANNEL_AGAIN, OUT_OF_RANGE};
use layout::tag::CNTT;
use layout::turn::{Met, Refusal, Turn};
use read_ranges::first_out;
use read_record::edition::{ctab_place, size_of, tag_of};

// How many Ctabs there are, and for each source channel whether one of them has it.
#[derive(Clone, Copy)]
pub struct Ctabs {
    pub count: usize,
    pub seen: [bool; CHANNELS],
}

// Whether the Ctabs end at `at`: the group's end, or a Cntt.
fn is_over(c: &[u8], at: usize) -> bool
    requires { at ≤ length c.now }
    ensures { result ≡ ctabs_over c.now at }
{
    if at == c.len() {
        return true;
    }
    if c.len() - at < 8 {
        return false;
    }
    read_bytes::is_tagged(c, at, CNTT)
}

// Ctab number n of the run of an edition that begins at p.
fn ctab_turn(edition: Edition, c: &[u8], p: usize, n: usize, seen: &[bool; CHANNELS]) -> Turn
    requires { (ctab_place edition p n ≤ length c.now) × Seen (ctab_channel edition c.now p) n seen.now }
    ensures { result ≡ ctab_turn edition c.now p n }
{
    let size = size_of(edition);
    let at = ctab_place(edition, c, p, n);
    if is_over(c, at) {
        return Ok(Met::End);
    }
    read_bytes::check_head(c, at, tag_of(edition))?;
    if read_bytes::word_at(c, at + 4) != size {
        return Err(Refusal {
            number: BAD_SIZE,
            place: at,
        });
    }
    let k = first_out(edition, c, at + 8);
    if k < size {
        return Err(Refusal {
            number: OUT_OF_RANGE,
            place: at + 8 + k,
        });
    }
    let channel = read_bytes::byte(c, at + 8);
    if seen[channel] {
        return Err(Refusal {
            number: CHANNEL_AGAIN,
            place: at,
        });
    }
    Ok(Met::Chunk)
}

// The Ctabs of an edition from p on.
pub fn read_ctabs(edition: Edition, c: &[u8], p: usize) -> Result<Ctabs, Refusal>
    requires { p ≤ length c.now }
    ensures { CtabsRead edition c.now p result }
{
    let mut seen = [false; CHANNELS];
    let mut n = 0;
    while let Met::Chunk = ctab_turn(edition, c, p, n, &seen)? {
        let channel = read_bytes::byte(c, ctab_place(edition, c, p, n) + 8);
        seen[channel] = true;
        n += 1;
    }
    Ok(Ctabs { count: n, seen })
}
