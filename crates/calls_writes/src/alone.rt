// The verbs on a record alone: where it places a note, and one field byte of it set.
use casm::questions::place_note;
use casm_by_value::set_with;
use script_records::{put_record, take_record};
use script_text::print::Printed;
use script_words::word::Words;

// `place REC ROOT NOTE`
pub fn place(words: &mut Words<'_>, out: &mut Printed) -> Option<()> {
    let rec = take_record(words)?;
    let root = words.byte()?;
    let note = words.byte()?;
    words.end()?;
    let placed = place_note(rec, root, note);
    out.told(placed.number, placed.place, &[usize::from(placed.note)]);
    Some(())
}

// `screen REC INDEX VALUE`
pub fn screen(words: &mut Words<'_>, out: &mut Printed) -> Option<()> {
    let rec = take_record(words)?;
    let index = words.number()?;
    let value = words.byte()?;
    words.end()?;
    let changed = set_with(rec, index, value);
    out.answer(changed.number, changed.place);
    out.byte(b' ');
    put_record(out, changed.held);
    out.end();
    Some(())
}
