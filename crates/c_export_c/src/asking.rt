// The questions: who plays under a chord, what a voice is called, and where a note goes (document 01, "Who plays", "Placing a note").
ghost use Rattle.layout.specs.Promises.{PlaysTold, VoiceFound, NotePlaced};
ghost use Rattle.c_row.specs.Rows.{recorded};
ghost use Rattle.c_export.specs.Crossing.{as_spanned, as_played, as_placed};

use c_export::answer::{Note, Players, Span};
use c_row::row::Row;

// The source channels of a part's group that play under a chord root and chord type, in Ctab order.
#[unsafe(no_mangle)]
pub extern "C" fn casm_plays(body: &[u8], part: &[u8], root: u8, kind: u8) -> Players
    ensures { PlaysTold body.now part.now root kind (as_played result) }
{
    c_export::asking::casm_plays(body, part, root, kind)
}

// Where the voice name of a source channel's record stands in the body, its trailing spaces left off.
#[unsafe(no_mangle)]
pub extern "C" fn casm_voice(body: &[u8], group: usize, source: u8) -> Span
    ensures { VoiceFound body.now group source (as_spanned result) }
{
    c_export::asking::casm_voice(body, group, source)
}

// The note that a record gives under a chord root, or the refusal.
#[unsafe(no_mangle)]
pub extern "C" fn casm_place(row: Row, root: u8, note: u8) -> Note
    ensures { NotePlaced (recorded row) root note (as_placed result) }
{
    c_export::asking::casm_place(row, root, note)
}
