// What stands at a place of a body, sound or not: the chunk there, found by the lengths that stand before it.
ghost use Rattle.std.specs.Prelude.{◌≡◌, ◌+◌, ◌-◌, ◌≤◌, ◌<◌, cond, length};
ghost use Rattle.layout.specs.Bytes.{tagged, CSEG as CSEGTAG};
ghost use Rattle.layout.specs.Answers.{refused, granted};
ghost use Rattle.layout.specs.Chunks.{chunk_of, site_no, sited};
ghost use Rattle.layout.specs.Promises.{PlaceFound};

use layout::answer::Sited;
use layout::limit::BODY;
use layout::refusal::{BAD_NUMBER, OVER_LIMIT};
use layout::tag::CSEG;

// Whether the header of a group begins at `at`.
fn is_group(s: &[u8], at: usize) -> bool
    requires { at ≤ length s.now }
    ensures { result ≡ tagged s.now at CSEGTAG }
{
    if s.len() - at < 4 {
        return false;
    }
    read_bytes::is_tagged(s, at, CSEG)
}

// The answer that refuses.
fn refusal(number: u8) -> Sited
    ensures { result ≡ sited (refused number 0) }
{
    Sited {
        number,
        place: 0,
        group: 0,
        child: 0,
        chunk: 0,
    }
}

// How far behind a chunk the next one stands: a group's header leads to its chunks, any other chunk is passed over whole.
fn step_of(begins: bool, whole: usize) -> usize
    ensures { result ≡ cond begins 8 whole }
{
    if begins {
        return 8;
    }
    whole
}

// The number in its group of a chunk that begins one or not: a group's header is number 0.
fn child_of(begins: bool, rank: usize) -> usize
    ensures { result ≡ cond begins 0 rank }
{
    if begins {
        return 0;
    }
    rank
}

// What is told of the chunk at `at`, where so many groups began before it and it has this number in its group, unless it begins one.
fn told(s: &[u8], at: usize, groups: usize, rank: usize) -> Sited
    requires { (at ≤ length s.now) × (groups ≤ 32768) }
    ensures { result ≡ sited (granted (record { group = groups + cond (tagged s.now at CSEGTAG) 1 0 - 1; child = cond (tagged s.now at CSEGTAG) 0 rank; chunk = at })) }
{
    let begins = is_group(s, at);
    Sited {
        number: 0,
        place: 0,
        group: (groups + usize::from(begins)).saturating_sub(1),
        child: child_of(begins, rank),
        chunk: at,
    }
}

// The chunk that has a place, from chunk to chunk. A place within 8 bytes of a chunk's beginning is in that chunk; where it is not, all of the header is there.
// So each chunk that is passed over is asked once for its tag and once for its length.
fn walk(s: &[u8], place: usize) -> Sited
    requires { (place < length s.now) × (length s.now ≤ 32768) }
    ensures { result ≡ sited (granted (site_no s.now (chunk_of s.now place))) }
{
    let mut at: usize = 0;
    let mut groups: usize = 0;
    let mut rank: usize = 0;
    while 8 <= place - at {
        let begins = read_bytes::is_tagged(s, at, CSEG);
        let whole = 8 + read_bytes::word_at(s, at + 4);
        let step = step_of(begins, whole);
        if place - at < step {
            return told(s, at, groups, rank);
        }
        at += step;
        groups += usize::from(begins);
        rank = child_of(begins, rank) + 1;
    }
    told(s, at, groups, rank)
}

// What stands at a place of a body, or of an entry of its salvage list: the number of the group, the number of the chunk in it, and the place of the chunk's tag.
pub fn find_place(s: &[u8], place: usize) -> Sited
    ensures { PlaceFound s.now place result }
{
    if BODY < s.len() {
        return refusal(OVER_LIMIT);
    }
    if s.len() <= place {
        return refusal(BAD_NUMBER);
    }
    walk(s, place)
}
