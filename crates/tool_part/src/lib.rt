// The commands that ask something of a part: `plays` and `note`. The arguments are taken, the file is read, and its body must be sound.
#![tactic(auto)]

pub mod note;
pub mod plays;

use casm::read::find_part;
use tool_asked::body::{complain_no_part, complain_part, complain_unsound};
use tool_asked::read;
use tool_ends::{Cannot, Host};
use tool_files::{FILE, contents};
use tool_look::list::List;
use tool_look::{Verdict, body_of, look};

// A file that was read and whose body is sound: how long the file is, where the body begins and ends, and how many groups it has.
#[derive(Clone, Copy)]
pub struct Sound {
    pub length: usize,
    pub tag: usize,
    pub body: usize,
    pub groups: usize,
}

fn seen_of(
    rt: &impl Host,
    command: &[u8],
    path: &[u8],
    file: &[u8],
    list: &mut List,
) -> Result<Sound, Cannot> {
    let seen = look(file, list);
    match seen.found {
        Some(found) if seen.verdict == Verdict::Sound => Ok(Sound {
            length: file.len(),
            tag: found.tag,
            body: found.length,
            groups: found.count,
        }),
        _ => Err(complain_unsound(rt, command, path, file, list, seen)),
    }
}

// Reads the file that a path names.
pub fn read_sound(
    rt: &impl Host,
    command: &[u8],
    path: &[u8],
    bytes: &mut [u8; FILE],
) -> Result<Sound, Cannot> {
    let mut list = List::new();
    let length = read(rt, path, bytes)?;
    seen_of(rt, command, path, contents(bytes, length), &mut list)
}

// Its body.
pub fn body_in<'a>(bytes: &'a [u8; FILE], sound: Sound) -> &'a [u8] {
    body_of(contents(bytes, sound.length), sound.tag, sound.body)
}

// Whether the body has a part; else a line says which it has.
pub fn check_part(
    rt: &impl Host,
    command: &[u8],
    path: &[u8],
    body: &[u8],
    sound: Sound,
    name: &[u8],
) -> Result<(), Cannot> {
    let found = find_part(body, name);
    if found.number != 0 {
        return Err(complain_part(rt, command, name, path, body, sound.groups));
    }
    Ok(())
}

// No part is named.
pub fn complain_missing(
    rt: &impl Host,
    command: &[u8],
    path: &[u8],
    body: &[u8],
    sound: Sound,
) -> Cannot {
    complain_no_part(rt, command, path, body, sound.groups)
}
