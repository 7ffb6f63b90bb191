// The salvage list (document 01, "The salvage list"): a damaged body in pieces, what is sound kept apart from what is not; and one entry by its bytes alone.
#![tactic(auto)]

ghost use Rattle.std.specs.Prelude.{◌≡◌, true, cond, ◌+◌, ◌*◌, ◌/◌, ◌≤◌, ◌<◌, leb, length, drop};
ghost use Rattle.layout.specs.Promises.{Salvaged, EntryJudged};
ghost use Rattle.layout.specs.Salvage.{cseg, salvage, entry_judged};
ghost use Rattle.read_salvage.specs.Entries.{Skip, Next, PieceLed, EntryAt, entry_put, list_after, told};

use layout::answer::{Counted, Measured};
use layout::limit::BODY;
use layout::refusal::{BAD_TAG, NO_ROOM, OVER_LIMIT};
use layout::tag::CSEG;
use layout::turn::Refusal;

// An entry's length and kind; its place is known where it is asked for. A kind stays the documents' number, 0 for a group: it is made in two places and only stored.
#[derive(Clone, Copy)]
struct Found {
    size: usize,
    kind: u8,
}

// Whether CSEG stands at k.
fn is_cseg(s: &[u8], k: usize) -> bool
    requires { k + 4 ≤ length s.now }
    ensures { result ≡ cseg (drop k s.now) }
{
    read_bytes::is_tagged(s, k, CSEG)
}

// How far on the next CSEG can stand, where none stands at k and b stands at k + 3.
fn skip(b: u8) -> usize
    ensures { Skip b result }
{
    match b {
        b'E' => 1,
        b'S' => 2,
        b'C' => 3,
        _ => 4,
    }
}

// The first place from `from` on where CSEG stands, or the end. k goes on by one to four places, so no range counts it.
fn next_cseg(s: &[u8], from: usize) -> usize
    requires { from ≤ length s.now }
    ensures { Next s.now from result }
{
    if s.len() < 4 {
        return s.len();
    }
    let end = s.len() - 3;
    let mut k = from;
    while k < end {
        if is_cseg(s, k) {
            return k;
        }
        k += skip(s[k + 3]);
    }
    s.len()
}

// The first entry of a piece: the group that stands at its start, or else the whole piece.
fn judge_piece(piece: &[u8]) -> Found
    requires { 0 < length piece.now }
    ensures { PieceLed piece.now result.size result.kind }
{
    match read_group::judge_group(piece) {
        Ok(_) => {
            let size = 8 + read_bytes::word_at(piece, 4);
            Found { size, kind: 0 }
        }
        Err(why) => Found {
            size: piece.len(),
            kind: why.number,
        },
    }
}

// The entry that starts at i, where what stands before i is done with.
fn entry_at(body: &[u8], i: usize) -> Found
    requires { i < length body.now }
    ensures { EntryAt body.now i result.size result.kind }
{
    let start = next_cseg(body, i);
    if i < start {
        return Found {
            size: start - i,
            kind: BAD_TAG,
        };
    }
    let e = next_cseg(body, i + 4);
    judge_piece(&body[i..e])
}

// Writes entry number k to a lent list, where entries are stored and not only counted.
fn put_entry(list: &mut [usize], k: usize, place: usize, f: Found, stored: bool)
    requires { stored ≡ true → 3 * k + 3 ≤ length list.old }
    ensures { list.new ≡ cond stored (entry_put list.old k place f.size f.kind) list.old }
{
    if stored {
        let at = 3 * k;
        list[at] = place;
        list[at + 1] = f.size;
        list[at + 2] = f.kind as usize;
    }
}

// How many entries there are; where they are stored, they are written to a lent list that has room for them all. Each is as long as it says, so no range counts i.
// One loop counts and stores, by a flag, with the entry made inside it: where counting and filling each asked for it, salvage was slower (docs/SPEED.md, "What was slow").
fn entries(body: &[u8], list: &mut [usize], stored: bool) -> usize
    requires { stored ≡ true → 3 * length (salvage body.now) ≤ length list.old }
    ensures value { result ≡ length (salvage body.now) }
    ensures list_after { list.new ≡ cond stored (list_after (salvage body.now) list.old) list.old }
{
    let mut n: usize = 0;
    let mut i: usize = 0;
    while i < body.len() {
        let f = entry_at(body, i);
        put_entry(list, n, i, f, stored);
        i += f.size;
        n += 1;
    }
    n
}

// Whether a lent list has room for all entries: counted only where the body's length does not say it.
fn fits(body: &[u8], list: &mut [usize]) -> bool
    ensures value { result ≡ leb (length (salvage body.now)) (length list.old / 3) }
    ensures list_unchanged { list.new ≡ list.old }
{
    let room = list.len() / 3;
    if body.len() / 4 < room {
        return true;
    }
    entries(body, list, false) <= room
}

// Fills a lent list with the entries of a body's salvage list, three numbers each (place, length, kind), and answers how many there are.
// Refused with 3 for a body over the limit, then with 14 where the list has no room for all of them; both leave it as it was.
pub fn list_salvage(body: &[u8], list: &mut [usize]) -> Counted
    ensures { Salvaged body.now list.old result list.new }
{
    if BODY < body.len() {
        return Counted {
            number: OVER_LIMIT,
            place: 0,
            count: 0,
        };
    }
    if !fits(body, list) {
        return Counted {
            number: NO_ROOM,
            place: 0,
            count: 0,
        };
    }
    let n = entries(body, list, true);
    Counted {
        number: 0,
        place: 0,
        count: n,
    }
}

// Whether CSEG stands at the start.
fn begins(entry: &[u8]) -> bool
    ensures { result ≡ cseg entry.now }
{
    4 <= entry.len() && is_cseg(entry, 0)
}

// The size of the group that stands at an entry's start.
fn group_size(entry: &[u8]) -> Result<usize, Refusal>
    ensures { told result ≡ entry_judged entry.now }
{
    if BODY < entry.len() {
        return Err(Refusal {
            number: OVER_LIMIT,
            place: 0,
        });
    }
    if !begins(entry) {
        return Err(Refusal {
            number: BAD_TAG,
            place: 0,
        });
    }
    read_group::judge_group(entry)?;
    Ok(8 + read_bytes::word_at(entry, 4))
}

// An entry by its bytes alone: the size of the group that stands at its start, or the refusal, whose place counts from the entry's start.
pub fn judge_entry(entry: &[u8]) -> Measured
    ensures { EntryJudged entry.now result }
{
    match group_size(entry) {
        Ok(size) => Measured {
            number: 0,
            place: 0,
            length: size,
        },
        Err(why) => Measured {
            number: why.number,
            place: why.place,
            length: 0,
        },
    }
}
