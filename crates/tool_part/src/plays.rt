// `casm plays FILE PART [CHORD]`, and the same with `--json`.
use crate::{Sound, body_in, check_part, complain_missing, read_sound};
use tool_asked::{Asked, Form, asked_from, complain_option, next_name};
use tool_chord::parse_chord;
use tool_chord::wrong::complain_chord;
use tool_ends::{Argument, Cannot, Host, Status, complain};
use tool_files::FILE;
use tool_out::Out;

// The channels that play under a chord that is written.
fn put_chord(
    rt: &impl Host,
    out: &mut Out,
    path: &[u8],
    body: &[u8],
    name: &[u8],
    written: &[u8],
    form: Form,
) -> Result<Status, Cannot> {
    let chord = match parse_chord(written) {
        Ok(chord) => chord,
        Err(why) => return Err(complain_chord(rt, b"plays", written, why)),
    };
    match form {
        Form::Words => tool_plays::plays_chord(out, body, name, chord.root, chord.kind),
        Form::Json => tool_plays_json::plays_json(out, path, body, name, chord.root, chord.kind),
    }
    Ok(Status::Done)
}

// How many play under each chord.
fn put_matrix(out: &mut Out, path: &[u8], body: &[u8], name: &[u8], form: Form) -> Status {
    match form {
        Form::Words => tool_matrix::plays_matrix(out, body, name),
        Form::Json => tool_plays_json::matrix::matrix_json(out, path, body, name),
    }
    Status::Done
}

// Answers of a part that is named.
fn answer_part(
    rt: &impl Host,
    out: &mut Out,
    path: &[u8],
    body: &[u8],
    sound: Sound,
    asked: Asked,
    i: usize,
) -> Result<Status, Cannot> {
    let name = Argument::at(rt, i);
    check_part(rt, b"plays", path, body, sound, name.text())?;
    if asked.words == 2 {
        return Ok(put_matrix(out, path, body, name.text(), asked.form));
    }
    let written = Argument::at(rt, next_name(rt, i));
    put_chord(rt, out, path, body, name.text(), written.text(), asked.form)
}

fn answer(
    rt: &impl Host,
    out: &mut Out,
    bytes: &mut [u8; FILE],
    path: &[u8],
    asked: Asked,
    first: usize,
) -> Result<Status, Cannot> {
    let sound = read_sound(rt, b"plays", path, bytes)?;
    let body = body_in(bytes, sound);
    if asked.words == 1 {
        return Err(complain_missing(rt, b"plays", path, body, sound));
    }
    answer_part(rt, out, path, body, sound, asked, next_name(rt, first))
}

pub fn plays(rt: &impl Host, out: &mut Out, from: usize) -> Result<Status, Cannot> {
    let asked = asked_from(rt, from);
    if let Some(i) = asked.unknown {
        return Err(complain_option(rt, b"plays", i, b"--json"));
    }
    let Some(first) = asked.first else {
        return Err(complain(
            rt,
            b"plays",
            b"no FILE; expected casm plays FILE PART [CHORD]",
        ));
    };
    if 3 < asked.words {
        return Err(complain(
            rt,
            b"plays",
            b"too many arguments; expected casm plays FILE PART [CHORD]",
        ));
    }
    let mut bytes = tool_files::room();
    let path = Argument::at(rt, first);
    answer(rt, out, &mut bytes, path.text(), asked, first)
}
