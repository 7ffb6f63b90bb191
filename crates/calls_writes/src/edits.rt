// The verbs `edit` and `editfile`: a record is edited inside a body or a style file, and the answer is printed with it.
use casm::editing::{edit_file, edit_record};
use layout::answer::Answered;
use layout::lock::Override;
use layout::record::SourceChannel;
use script_records::take_record;
use script_text::print::Printed;
use script_words::bytes::Room;
use script_words::word::Words;

// OVERRIDE is 0 or 1.
fn take_override(words: &mut Words<'_>) -> Option<Override> {
    match words.number()? {
        0 => Some(Override::NotAsked),
        1 => Some(Override::Asked),
        _ => None,
    }
}

fn put_edited(out: &mut Printed, answer: Answered, bytes: &[u8]) {
    out.answer(answer.number, answer.place);
    out.byte(b' ');
    out.bytes(bytes);
    out.end();
}

// `edit BYTES G CHANNEL REC OVERRIDE`
pub fn body(words: &mut Words<'_>, room: &mut Room, out: &mut Printed) -> Option<()> {
    let body = words.bytes(room)?;
    let group = words.number()?;
    let channel = SourceChannel(words.byte()?);
    let new = take_record(words)?;
    let over = take_override(words)?;
    words.end()?;
    let answer = edit_record(body, group, channel, new, over);
    put_edited(out, answer, body);
    Some(())
}

// `editfile BYTES NAME CHANNEL OVERRIDE REC`
pub fn file(
    words: &mut Words<'_>,
    room: &mut Room,
    name: &mut Room,
    out: &mut Printed,
) -> Option<()> {
    let file = words.bytes(room)?;
    let name = words.bytes(name)?;
    let channel = SourceChannel(words.byte()?);
    let over = take_override(words)?;
    let new = take_record(words)?;
    words.end()?;
    let answer = edit_file(file, name, channel, new, over);
    put_edited(out, answer, file);
    Some(())
}
