// Questions to a body: who plays, and what a voice is called.
use casm::questions::{find_voice, voice_name, who_plays};
use layout::record::SourceChannel;
use script_text::print::Printed;
use script_words::bytes::Room;
use script_words::word::Words;

// `plays BYTES NAME ROOT TYPE`
pub fn plays(
    words: &mut Words<'_>,
    room: &mut Room,
    name: &mut Room,
    out: &mut Printed,
) -> Option<()> {
    let body = words.bytes(room)?;
    let name = words.bytes(name)?;
    let root = words.byte()?;
    let kind = words.byte()?;
    words.end()?;
    let played = who_plays(body, name, root, kind);
    if out.answer(played.number, played.place) {
        for channel in played.channels.iter().take(played.count) {
            out.number(usize::from(channel.0));
        }
    }
    out.end();
    Some(())
}

// `voice BYTES G CHANNEL`: where the name stands says whether it is refused.
pub fn voice(words: &mut Words<'_>, room: &mut Room, out: &mut Printed) -> Option<()> {
    let body = words.bytes(room)?;
    let group = words.number()?;
    let channel = SourceChannel(words.byte()?);
    words.end()?;
    let found = find_voice(body, group, channel);
    if out.answer(found.number, found.place) {
        out.byte(b' ');
        out.bytes(voice_name(body, group, channel));
    }
    out.end();
    Some(())
}
