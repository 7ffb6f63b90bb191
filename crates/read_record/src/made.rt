// The record of its bytes, where they stand: bytes 0-25 of a Ctab with its Cntt and the Cntt's position, or bytes 0-46 of a Ctb2.
ghost use Rattle.std.specs.Prelude.{◌≡◌, ◌+◌, ◌≤◌, length};
ghost use Rattle.layout.specs.declared.edition.Edition.TheVariants.{First, Second};
ghost use Rattle.layout.specs.Editions.{held};
ghost use Rattle.layout.specs.Records.{set_at, tail_at, record_with, record_of};

use layout::edition::Edition;
use layout::record::{
    DestinationChannel, Form, Record, SecondTable, Set, Single, SourceChannel, Tail, Triple,
};

// The set at a place.
#[tactic(auto, unfolding(layout::specs::Records::set_at))]
pub fn set_at(b: &[u8], at: usize) -> Set
    requires { at + 6 ≤ length b.now }
    ensures { result ≡ set_at b.now at }
{
    Set {
        rule: b[at],
        table: b[at + 1],
        key: b[at + 2],
        low: b[at + 3],
        high: b[at + 4],
        retrigger: b[at + 5],
    }
}

// Bytes 40-46.
#[tactic(auto, unfolding(layout::specs::Records::tail_at))]
fn tail_at(b: &[u8]) -> Tail
    requires { held Second ≤ length b.now }
    ensures { result ≡ tail_at b.now }
{
    Tail(b[40], b[41], b[42], b[43], b[44], b[45], b[46])
}

// The record whose bytes 0-19 stand at the start of b, with this form.
#[tactic(auto, unfolding(layout::specs::Records::record_with))]
fn record_with(b: &[u8], form: Form) -> Record
    requires { 20 ≤ length b.now }
    ensures { result ≡ record_with b.now form }
{
    Record {
        source: SourceChannel(b[0]),
        voice: [b[1], b[2], b[3], b[4], b[5], b[6], b[7], b[8]],
        destination: DestinationChannel(b[9]),
        locked: b[10],
        roots: [b[11], b[12]],
        chords: [b[13], b[14], b[15], b[16], b[17]],
        root: b[18],
        chord: b[19],
        form,
    }
}

// The record of a Ctab whose bytes 0-25 stand at the start of b, with its Cntt and the Cntt's position. (One function for both editions would choose between two forms that share no field.)
#[tactic(auto, unfolding(layout::specs::Records::record_of, layout::specs::Records::form_of))]
fn ctab_of(b: &[u8], second: SecondTable, position: u8) -> Record
    requires { held First ≤ length b.now }
    ensures { result ≡ record_of First b.now second position }
{
    let x = Single {
        set: set_at(b, 20),
        second,
        position,
    };
    record_with(b, Form::One(x))
}

// The record of a Ctb2 whose bytes stand at the start of b.
#[tactic(auto, unfolding(layout::specs::Records::record_of, layout::specs::Records::form_of))]
fn ctb2_of(b: &[u8], second: SecondTable, position: u8) -> Record
    requires { held Second ≤ length b.now }
    ensures { result ≡ record_of Second b.now second position }
{
    let x = Triple {
        from: b[20],
        to: b[21],
        low: set_at(b, 22),
        middle: set_at(b, 28),
        high: set_at(b, 34),
        tail: tail_at(b),
    };
    record_with(b, Form::Three(x))
}

// The record of an edition whose bytes stand at the start of b; a Cntt is the first edition's alone.
pub fn record_of(edition: Edition, b: &[u8], second: SecondTable, position: u8) -> Record
    requires { held edition ≤ length b.now }
    ensures { result ≡ record_of edition b.now second position }
{
    match edition {
        Edition::First => ctab_of(b, second, position),
        Edition::Second => ctb2_of(b, second, position),
    }
}
