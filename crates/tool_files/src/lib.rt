// A named file, read whole into lent memory.
#![tactic(auto)]

use std::fs::open;
use std::io;
use std::io::{ErrorKind, Read};
use std::rt::Files;
use tool_bytes::part;
use tool_stat::{known, path_text};

// A file of at most 1,048,576 bytes; one byte more shows that there is more.
pub const FILE: usize = 1048577;

pub fn room() -> [u8; FILE] {
    [0; FILE]
}

// Why a file was not read.
#[derive(Clone, Copy)]
pub enum Unread {
    Missing,
    Forbidden,
    Directory,
    TooLarge,
    Unreadable,
    Empty,
    Special,
    LongName,
}

impl Unread {
    pub fn words(self) -> &'static [u8] {
        match self {
            Unread::Missing => b"no such file",
            Unread::Forbidden => b"it may not be read",
            Unread::Directory => b"a directory; expected a file",
            Unread::TooLarge => b"the file is larger than 1,048,576 bytes",
            Unread::Unreadable => b"it cannot be read",
            Unread::Empty => b"the file is empty",
            Unread::Special => b"a pipe or a device; expected a file",
            Unread::LongName => b"its name is too long",
        }
    }
}

// What an error of a call says of the file.
fn unread_of(kind: ErrorKind) -> Unread {
    match kind {
        ErrorKind::NotFound | ErrorKind::NotADirectory | ErrorKind::InvalidInput => Unread::Missing,
        ErrorKind::PermissionDenied => Unread::Forbidden,
        ErrorKind::IsADirectory => Unread::Directory,
        ErrorKind::InvalidFilename => Unread::LongName,
        _ => Unread::Unreadable,
    }
}

// Reads until the memory is full or the file ends, and returns how many bytes it put at its start.
fn fill<F: Read>(file: &mut F, bytes: &mut [u8]) -> io::Result<usize> {
    let mut done = 0;
    for _ in 0..u64::MAX {
        if bytes.len() <= done {
            break;
        }
        match file.read(&mut bytes[done..]) {
            Ok(0) => break,
            Ok(n) => done += n,
            Err(e) => {
                if e.kind() != ErrorKind::Interrupted {
                    return Err(e);
                }
            }
        }
    }
    Ok(done)
}

fn read_open<F: Read>(file: &mut F, bytes: &mut [u8; FILE]) -> Result<usize, Unread> {
    match fill(file, bytes) {
        Ok(0) => Err(Unread::Empty),
        Ok(FILE) => Err(Unread::TooLarge),
        Ok(length) => Ok(length),
        Err(e) => Err(unread_of(e.kind())),
    }
}

// The longest path that C can be handed, with the zero behind it.
const PATH_MAX: usize = 4096;

// The kinds of a file that its mode names.
const KIND: u32 = 0o10000;

const REGULAR: u32 = 0o10;

const FOLDER: u32 = 0o4;

// What the kind of a file says, before it is opened: a pipe would be waited for.
fn readable(mode: u32) -> Result<(), Unread> {
    match mode / KIND {
        REGULAR => Ok(()),
        FOLDER => Err(Unread::Directory),
        _ => Err(Unread::Special),
    }
}

fn readable_at(rt: &impl Files, path: &[u8]) -> Result<(), Unread> {
    if PATH_MAX <= path.len() {
        return Err(Unread::LongName);
    }
    match known(rt, path) {
        Ok(file) => readable(file.mode),
        Err(e) => Err(unread_of(e.kind())),
    }
}

fn read_named(
    rt: &impl Files,
    path: &[u8],
    bytes: &mut [u8; FILE],
) -> io::Result<Result<usize, Unread>> {
    let mut file = open(rt, path_text(path)?)?;
    Ok(read_open(&mut file, bytes))
}

// Reads the file that a path names: how many bytes it has. The file is closed before this answers.
pub fn read_file(rt: &impl Files, path: &[u8], bytes: &mut [u8; FILE]) -> Result<usize, Unread> {
    readable_at(rt, path)?;
    match read_named(rt, path, bytes) {
        Ok(read) => read,
        Err(e) => Err(unread_of(e.kind())),
    }
}

// The bytes that were read.
pub fn contents<'a>(bytes: &'a [u8; FILE], length: usize) -> &'a [u8] {
    let s: &[u8] = bytes;
    part(s, 0, length)
}
