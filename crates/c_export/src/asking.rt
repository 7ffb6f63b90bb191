// The questions: who plays under a chord, what a voice is called, and where a note goes (document 01, "Who plays", "Placing a note").
ghost use Rattle.layout.specs.Promises.{PlaysTold, VoiceFound, NotePlaced};
ghost use Rattle.layout.specs.declared.edition.Edition.TheVariants.{First, Second};
ghost use Rattle.layout.specs.Records.{Absent};
ghost use Rattle.layout.specs.Records.{record_of};
ghost use Rattle.c_row.specs.Rows.{second_by, recorded};
ghost use Rattle.c_export.specs.Crossing.{as_spanned, as_played, as_placed};

use crate::answer::{Note, Players, Span};
use ask_place::{place_ctab, place_ctb2};
use c_row::channels::numbers;
use c_row::row::{Row, edition_by, second_by};
use layout::answer::Placed;
use layout::edition::Edition;
use layout::record::SourceChannel;

// The source channels of a part's group that play under a chord root and chord type, in Ctab order.
#[unsafe(no_mangle)]
pub extern "C" fn casm_plays(body: &[u8], part: &[u8], root: u8, kind: u8) -> Players
    ensures { PlaysTold body.now part.now root kind (as_played result) }
{
    let x = casm::questions::who_plays(body, part, root, kind);
    let c = x.channels;
    let channels = numbers(c);
    Players {
        number: x.number,
        place: x.place,
        count: x.count,
        channels,
    }
}

// Where the voice name of a source channel's record stands in the body, its trailing spaces left off.
#[unsafe(no_mangle)]
pub extern "C" fn casm_voice(body: &[u8], group: usize, source: u8) -> Span
    ensures { VoiceFound body.now group source (as_spanned result) }
{
    let x = casm::questions::find_voice(body, group, SourceChannel(source));
    Span {
        number: x.number,
        place: x.place,
        start: x.start,
        length: x.length,
    }
}

// A row of the first edition, and one of the second: each is asked where it stands, and no record of it is made.
fn place_first(row: Row, root: u8, note: u8) -> Placed
    ensures { NotePlaced (record_of First row.bytes (second_by row.has_cntt row.cntt) 0) root note result }
{
    let second = second_by(row.has_cntt, row.cntt);
    place_ctab(&row.bytes, second, root, note)
}

fn place_second(row: Row, root: u8, note: u8) -> Placed
    ensures { NotePlaced (record_of Second row.bytes Absent 0) root note result }
{
    place_ctb2(&row.bytes, root, note)
}

// The note that a row's record gives, the edition told apart here.
fn place_row(row: Row, root: u8, note: u8) -> Placed
    ensures { NotePlaced (recorded row) root note result }
{
    match edition_by(row.edition) {
        Edition::First => place_first(row, root, note),
        Edition::Second => place_second(row, root, note),
    }
}

// The note that a record gives under a chord root, or the refusal.
#[unsafe(no_mangle)]
pub extern "C" fn casm_place(row: Row, root: u8, note: u8) -> Note
    ensures { NotePlaced (recorded row) root note (as_placed result) }
{
    let x = place_row(row, root, note);
    Note {
        number: x.number,
        place: x.place,
        note: x.note,
    }
}
