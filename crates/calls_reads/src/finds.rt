// Strict reading, and where the things of a body stand: a refusal, or the numbers in the order of their answer.
use casm::list::judge_entry;
use casm::read::{
    find_casm, find_channel, find_group, find_part, find_place, read_body, read_section,
};
use layout::edition::Edition;
use layout::record::SourceChannel;
use script_text::print::Printed;
use script_words::bytes::Room;
use script_words::word::Words;

// `find BYTES`
pub fn find(words: &mut Words<'_>, room: &mut Room, out: &mut Printed) -> Option<()> {
    let file = words.bytes(room)?;
    words.end()?;
    let found = find_casm(file);
    out.told(found.number, found.place, &[found.tag, found.length]);
    Some(())
}

// `body BYTES`
pub fn body(words: &mut Words<'_>, room: &mut Room, out: &mut Printed) -> Option<()> {
    let body = words.bytes(room)?;
    words.end()?;
    let read = read_body(body);
    out.told(read.number, read.place, &[read.count]);
    Some(())
}

// `part BYTES NAME`
pub fn part(
    words: &mut Words<'_>,
    room: &mut Room,
    name: &mut Room,
    out: &mut Printed,
) -> Option<()> {
    let body = words.bytes(room)?;
    let name = words.bytes(name)?;
    words.end()?;
    let found = find_part(body, name);
    out.told(found.number, found.place, &[found.group]);
    Some(())
}

// The number of a group's edition, 0 for a group without records, which suits either.
fn edition_told(edition: Edition, records: usize) -> usize {
    match edition {
        _ if records == 0 => 0,
        Edition::First => 1,
        Edition::Second => 2,
    }
}

// `where BYTES G`: `where` is a word of the language.
pub fn place(words: &mut Words<'_>, room: &mut Room, out: &mut Printed) -> Option<()> {
    let body = words.bytes(room)?;
    let group = words.number()?;
    words.end()?;
    let found = find_group(body, group);
    let stands = found.group;
    let told = [
        stands.at,
        stands.size,
        stands.text,
        stands.length,
        stands.ctabs,
        stands.records,
        stands.cntts,
        stands.seconds,
        edition_told(stands.edition, stands.records),
    ];
    out.told(found.number, found.place, &told);
    Some(())
}

// `channel BYTES G CHANNEL`
pub fn channel(words: &mut Words<'_>, room: &mut Room, out: &mut Printed) -> Option<()> {
    let body = words.bytes(room)?;
    let group = words.number()?;
    let source = SourceChannel(words.byte()?);
    words.end()?;
    let found = find_channel(body, group, source);
    out.told(found.number, found.place, &[found.row, found.at]);
    Some(())
}

// `section BYTES AT`
pub fn section(words: &mut Words<'_>, room: &mut Room, out: &mut Printed) -> Option<()> {
    let file = words.bytes(room)?;
    let tag = words.number()?;
    words.end()?;
    let read = read_section(file, tag);
    out.told(read.number, read.place, &[read.length]);
    Some(())
}

// `entry BYTES`
pub fn entry(words: &mut Words<'_>, room: &mut Room, out: &mut Printed) -> Option<()> {
    let bytes = words.bytes(room)?;
    words.end()?;
    let judged = judge_entry(bytes);
    out.told(judged.number, judged.place, &[judged.length]);
    Some(())
}

// `site BYTES PLACE`
pub fn site(words: &mut Words<'_>, room: &mut Room, out: &mut Printed) -> Option<()> {
    let body = words.bytes(room)?;
    let place = words.number()?;
    words.end()?;
    let found = find_place(body, place);
    out.told(
        found.number,
        found.place,
        &[found.group, found.child, found.chunk],
    );
    Some(())
}
