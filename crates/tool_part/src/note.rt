// `casm note FILE PART CHANNEL CHORD NOTE`.
use crate::{Sound, body_in, check_part, complain_missing, read_sound};
use tool_asked::{Asked, Form, asked_from, complain_option, next_name};
use tool_chord::note::{parse_channel, parse_note};
use tool_chord::parse_chord;
use tool_chord::wrong::{complain_channel, complain_chord, complain_note};
use tool_ends::{Argument, Cannot, Host, Status, complain};
use tool_files::FILE;
use tool_out::Out;

// Places a note that is written, of a channel under a chord that are written.
fn place(
    rt: &impl Host,
    out: &mut Out,
    body: &[u8],
    name: &[u8],
    channel: &[u8],
    chord: &[u8],
    note: &[u8],
) -> Result<Status, Cannot> {
    let Some(source) = parse_channel(channel) else {
        return Err(complain_channel(rt, b"note", channel));
    };
    let under = match parse_chord(chord) {
        Ok(under) => under,
        Err(why) => return Err(complain_chord(rt, b"note", chord, why)),
    };
    let Some(played) = parse_note(note) else {
        return Err(complain_note(rt, b"note", note));
    };
    tool_note::note(rt, out, body, name, source, under.root, under.kind, played)
}

// The three arguments behind the part.
fn answer_part(
    rt: &impl Host,
    out: &mut Out,
    body: &[u8],
    name: &[u8],
    i: usize,
) -> Result<Status, Cannot> {
    let second = next_name(rt, i);
    let channel = Argument::at(rt, i);
    let chord = Argument::at(rt, second);
    let note = Argument::at(rt, next_name(rt, second));
    place(
        rt,
        out,
        body,
        name,
        channel.text(),
        chord.text(),
        note.text(),
    )
}

fn answer_named(
    rt: &impl Host,
    out: &mut Out,
    path: &[u8],
    body: &[u8],
    sound: Sound,
    i: usize,
) -> Result<Status, Cannot> {
    let name = Argument::at(rt, i);
    check_part(rt, b"note", path, body, sound, name.text())?;
    answer_part(rt, out, body, name.text(), next_name(rt, i))
}

fn answer(
    rt: &impl Host,
    out: &mut Out,
    bytes: &mut [u8; FILE],
    path: &[u8],
    asked: Asked,
    first: usize,
) -> Result<Status, Cannot> {
    let sound = read_sound(rt, b"note", path, bytes)?;
    let body = body_in(bytes, sound);
    if asked.words == 1 {
        return Err(complain_missing(rt, b"note", path, body, sound));
    }
    if asked.words != 5 {
        return Err(complain(
            rt,
            b"note",
            b"expected casm note FILE PART CHANNEL CHORD NOTE, as in casm note ballad.sty 'Main A' 11 F C3",
        ));
    }
    answer_named(rt, out, path, body, sound, next_name(rt, first))
}

pub fn note(rt: &impl Host, out: &mut Out, from: usize) -> Result<Status, Cannot> {
    let asked = asked_from(rt, from);
    if asked.form == Form::Json {
        return Err(complain(rt, b"note", b"it takes no option"));
    }
    if let Some(i) = asked.unknown {
        return Err(complain_option(rt, b"note", i, b"none"));
    }
    let Some(first) = asked.first else {
        return Err(complain(
            rt,
            b"note",
            b"no FILE; expected casm note FILE PART CHANNEL CHORD NOTE",
        ));
    };
    let mut bytes = tool_files::room();
    let path = Argument::at(rt, first);
    answer(rt, out, &mut bytes, path.text(), asked, first)
}
