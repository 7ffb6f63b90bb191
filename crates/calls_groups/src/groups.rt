// The verb `group`: a group's records are read into a lent table, and what came back is printed, with whether the rest of the table was kept.
use casm::read::group_text;
use casm_by_value::read_with_room;
use script_records::blanks::{blank_table, is_kept};
use script_records::rows::put_records;
use script_text::print::Printed;
use script_words::bytes::Room;
use script_words::word::Words;

// `group BYTES G ROOM`: there are no records where the call is refused.
pub fn group(words: &mut Words<'_>, room: &mut Room, out: &mut Printed) -> Option<()> {
    let body = words.bytes(room)?;
    let number = words.number()?;
    let lent = words.up_to(32)?;
    words.end()?;
    let filled = read_with_room(body, number, blank_table(), lent);
    let answer = filled.answer;
    if out.answer(answer.number, answer.place) {
        out.number(answer.count);
        out.byte(b' ');
        out.bytes(group_text(body, number));
    }
    put_records(out, &filled.table, answer.count);
    out.kept(is_kept(&filled.table, answer.count));
    Some(())
}
