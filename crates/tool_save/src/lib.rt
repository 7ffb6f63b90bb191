// A file written so that its name holds the old bytes or the new ones, and never half of them: a new file beside it is written, given its mode, synced, closed and then renamed.
// On any failure the new file is removed, and the target is as it was.
#![tactic(auto)]

pub mod link;
pub mod outcome;

ghost use Rattle.tool_save.specs.Names.{Appended, Beside};

use outcome::{Unsaved, unsaved_of};
use std::fs::{OpenFile, OpenOptions, Permissions, open, remove_file, rename};
use std::io;
use std::io::{ErrorKind, Write};
use std::os::unix::fs::{OpenOptionsExt, PermissionsExt};
use std::rt::Files;
use tool_bytes::part;
use tool_stat::path_text;

// The longest path that C can be handed, with the zero behind it.
pub const PATH_MAX: usize = 4096;

// Puts a text at `at`, and answers where it ends: past the array where it has no room, as `Appended` says it.
pub fn append(name: &mut [u8; PATH_MAX], at: usize, text: &[u8]) -> usize
    ensures { Appended name.old at text.now result name.new }
{
    if PATH_MAX < at || PATH_MAX - at < text.len() {
        return PATH_MAX + 1;
    }
    let end = at + text.len();
    name[at..end].copy_from_slice(text);
    end
}

// The target's name with `.casm-XXXXXX` behind it.
fn beside(name: &mut [u8; PATH_MAX], target: &[u8]) -> usize
    ensures { Beside target.now result name.new }
{
    let after = append(name, 0, target);
    append(name, after, b".casm-XXXXXX")
}

fn held<'a>(name: &'a [u8; PATH_MAX], length: usize) -> &'a [u8] {
    let s: &[u8] = name;
    part(s, 0, length)
}

// How many X's stand at the end of the name.
const DIGITS: usize = 6;

// Puts a number in place of the X's.
fn put_number(name: &mut [u8; PATH_MAX], length: usize, n: usize) {
    let mut left = n;
    let end = length.min(PATH_MAX);
    for digit in name[..end].iter_mut().rev().take(DIGITS) {
        *digit = b'0' + (left % 10) as u8;
        left /= 10;
    }
}

// Makes the file whose name has so many bytes, with a number in place of the X's that no file there has; only its owner may read it.
fn make<R: Files>(rt: &R, name: &mut [u8; PATH_MAX], length: usize) -> io::Result<R::File> {
    let mut options = OpenOptions::new();
    options.write(true).create_new(true).mode(0o600);
    for n in 0..1000000 {
        put_number(name, length, n);
        match options.open(rt, path_text(held(name, length))?) {
            Ok(file) => return Ok(file),
            Err(e) => {
                if e.kind() != ErrorKind::AlreadyExists {
                    return Err(e);
                }
            }
        }
    }
    Err(io::Error::from(ErrorKind::AlreadyExists))
}

// Writes all, gives the file its mode, and waits until the device has it.
fn keep<F: Write + OpenFile>(file: &mut F, bytes: &[u8], mode: u32) -> io::Result<()> {
    file.write_all(bytes)?;
    file.set_permissions(Permissions::from_mode(mode))?;
    file.sync_all()
}

// Makes the new file and keeps the bytes in it. It is closed before this answers.
fn write_new<R: Files>(
    rt: &R,
    name: &mut [u8; PATH_MAX],
    length: usize,
    bytes: &[u8],
    mode: u32,
) -> io::Result<io::Result<()>> {
    let mut file = make(rt, name, length)?;
    Ok(keep(&mut file, bytes, mode))
}

// Gives the new file its target's name, where it was written.
fn finish(rt: &impl Files, written: io::Result<()>, from: &str, target: &str) -> io::Result<()> {
    written?;
    rename(rt, from, target)
}

// What of a path names its folder, with the slash behind it.
pub fn folder<'a>(path: &'a [u8]) -> Option<&'a [u8]> {
    let slash = path.iter().rposition(|b| *b == b'/')?;
    Some(part(path, 0, slash.saturating_add(1)))
}

// Waits until the device has what a folder holds.
fn sync(rt: &impl Files, folder: &[u8]) -> io::Result<()> {
    open(rt, path_text(folder)?)?.sync_all()
}

// Not every folder can be opened, and what was written is written all the same.
fn sync_folder(rt: &impl Files, target: &[u8]) {
    let _ = match folder(target) {
        Some(folder) => sync(rt, folder),
        None => sync(rt, b"."),
    };
}

fn save_beside(
    rt: &impl Files,
    name: &mut [u8; PATH_MAX],
    length: usize,
    target: &[u8],
    bytes: &[u8],
    mode: u32,
) -> io::Result<()> {
    let written = write_new(rt, name, length, bytes, mode)?;
    let from = path_text(held(name, length))?;
    let finished = finish(rt, written, from, path_text(target)?);
    if finished.is_err() {
        let _ = remove_file(rt, from);
        return finished;
    }
    sync_folder(rt, target);
    Ok(())
}

// Gives the file of that name these bytes and a mode.
pub fn save(rt: &impl Files, target: &[u8], bytes: &[u8], mode: u32) -> Result<(), Unsaved> {
    let mut name = [0; PATH_MAX];
    let length = beside(&mut name, target);
    if PATH_MAX < length {
        return Err(Unsaved::LongName);
    }
    let saved = save_beside(rt, &mut name, length, target, bytes, mode);
    saved.map_err(|e| unsaved_of(e.kind()))
}
