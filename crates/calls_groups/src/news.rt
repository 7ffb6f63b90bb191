// The verb `write`: a group is written into a lent buffer, and the answer is printed with the whole of what was lent.
use casm_by_value::write::write_with;
use script_records::rows::take_records;
use script_text::print::Printed;
use script_words::bytes::Room;
use script_words::word::Words;

// The most bytes that are lent to be written into.
const BUFFER: usize = 2048;

// `write NAMES COUNT ROOM REC .. REC`
pub fn write(words: &mut Words<'_>, room: &mut Room, out: &mut Printed) -> Option<()> {
    let text = words.bytes(room)?;
    let count = words.number()?;
    let lent = words.up_to(BUFFER)?;
    let rows = take_records(words)?;
    let mut buffer = [0xAAu8; BUFFER];
    let lent = &mut buffer[..lent];
    let answer = write_with(text, rows.records, rows.lent, count, lent);
    if out.answer(answer.number, answer.place) {
        out.number(answer.length);
    }
    out.byte(b' ');
    out.bytes(lent);
    out.end();
    Some(())
}
