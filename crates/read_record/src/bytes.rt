// A record in memory as its bytes (document 01, "The CASM body"; document 02, §4), in an array that has room for either edition.
ghost use Rattle.std.specs.Prelude.{◌≡◌, ◌++◌, replicate};
ghost use Rattle.layout.specs.Records.{set_bytes, triple_bytes, head_bytes, laid_out};

use layout::record::{Form, Record, Set, Triple};
use layout::size::SECOND_RECORD;

// Bytes 0-19 of a record, and these behind them.
fn laid(r: Record, rest: [u8; 27]) -> [u8; SECOND_RECORD]
    ensures { result ≡ head_bytes r ++ rest }
{
    let voice = r.voice;
    let roots = r.roots;
    let chords = r.chords;
    [
        r.source.0,
        voice[0],
        voice[1],
        voice[2],
        voice[3],
        voice[4],
        voice[5],
        voice[6],
        voice[7],
        r.destination.0,
        r.locked,
        roots[0],
        roots[1],
        chords[0],
        chords[1],
        chords[2],
        chords[3],
        chords[4],
        r.root,
        r.chord,
        rest[0],
        rest[1],
        rest[2],
        rest[3],
        rest[4],
        rest[5],
        rest[6],
        rest[7],
        rest[8],
        rest[9],
        rest[10],
        rest[11],
        rest[12],
        rest[13],
        rest[14],
        rest[15],
        rest[16],
        rest[17],
        rest[18],
        rest[19],
        rest[20],
        rest[21],
        rest[22],
        rest[23],
        rest[24],
        rest[25],
        rest[26],
    ]
}

// Bytes 20-25 of a Ctab, and 00 behind them.
#[tactic(auto, unfolding(layout::specs::Records::set_bytes))]
fn one(set: Set) -> [u8; 27]
    ensures { result ≡ set_bytes set ++ replicate 21 0 }
{
    [
        set.rule,
        set.table,
        set.key,
        set.low,
        set.high,
        set.retrigger,
        0,
        0,
        0,
        0,
        0,
        0,
        0,
        0,
        0,
        0,
        0,
        0,
        0,
        0,
        0,
        0,
        0,
        0,
        0,
        0,
        0,
    ]
}

// Bytes 20-46 of a Ctb2.
#[tactic(auto, unfolding(layout::specs::Records::set_bytes, layout::specs::Records::triple_bytes, layout::specs::Records::tail_bytes))]
fn three(x: Triple) -> [u8; 27]
    ensures { result ≡ triple_bytes x }
{
    let low = x.low;
    let middle = x.middle;
    let high = x.high;
    let tail = x.tail;
    [
        x.from,
        x.to,
        low.rule,
        low.table,
        low.key,
        low.low,
        low.high,
        low.retrigger,
        middle.rule,
        middle.table,
        middle.key,
        middle.low,
        middle.high,
        middle.retrigger,
        high.rule,
        high.table,
        high.key,
        high.low,
        high.high,
        high.retrigger,
        tail.0,
        tail.1,
        tail.2,
        tail.3,
        tail.4,
        tail.5,
        tail.6,
    ]
}

// The bytes of a record; 00 behind those of a Ctab.
#[tactic(auto, unfolding(layout::specs::Records::laid_out, layout::specs::Records::bytes_of, layout::specs::Records::form_bytes, layout::specs::Records::form_edition))]
pub fn bytes_of(r: Record) -> [u8; SECOND_RECORD]
    ensures { result ≡ laid_out r }
{
    match r.form {
        Form::One(x) => laid(r, one(x.set)),
        Form::Three(x) => laid(r, three(x)),
    }
}
