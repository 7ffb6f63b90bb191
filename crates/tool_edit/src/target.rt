// The file that is written.
use std::io;
use tool_bytes::part;
use tool_ends::{Cannot, Host, begin, complain_of, end};
use tool_out::shown::How;
use tool_save::link::followed;
use tool_save::outcome::{Unsaved, replaceable, unsaved_of};
use tool_save::{PATH_MAX, save};
use tool_stat::{Known, known};

fn is_same(a: Known, b: Known) -> bool {
    a.device == b.device && a.number == b.number
}

fn complain_same(rt: &impl Host, path: &[u8], target: &[u8]) -> Cannot {
    let mut out = begin(rt, b"edit");
    out.text_as(How::Shown, target);
    out.text(b" is ");
    out.text_as(How::Shown, path);
    out.text(b" itself (--in-place changes it all the same)");
    end(rt, &mut out);
    Cannot
}

fn complain_other(rt: &impl Host, path: &[u8], target: &[u8]) -> Cannot {
    let mut out = begin(rt, b"edit");
    out.text_as(How::Shown, target);
    out.text(b" is not ");
    out.text_as(How::Shown, path);
    out.text(b", which alone --in-place changes");
    end(rt, &mut out);
    Cannot
}

fn told(rt: &impl Host, target: &[u8], saved: Result<(), Unsaved>) -> Result<(), Cannot> {
    saved.map_err(|why| complain_of(rt, b"edit", target, why.words()))
}

fn is_at(rt: &impl Host, path: &[u8], file: Known) -> bool {
    match known(rt, path) {
        Ok(own) => is_same(own, file),
        Err(_) => false,
    }
}

// What is wrong with a file that is there and is to be replaced.
fn check_there(
    rt: &impl Host,
    path: &[u8],
    target: &[u8],
    file: Known,
    is_in_place: bool,
) -> Result<(), Cannot> {
    if is_at(rt, path, file) {
        if is_in_place {
            return Ok(());
        }
        return Err(complain_same(rt, path, target));
    }
    if is_in_place {
        return Err(complain_other(rt, path, target));
    }
    told(rt, target, replaceable(file.mode))
}

// What is wrong with the file that is to be written, before anything is done.
pub fn check_target(
    rt: &impl Host,
    path: &[u8],
    target: &[u8],
    is_in_place: bool,
) -> Result<(), Cannot> {
    match known(rt, target) {
        Ok(file) => check_there(rt, path, target, file, is_in_place),
        Err(_) => {
            if is_in_place {
                return Err(complain_other(rt, path, target));
            }
            Ok(())
        }
    }
}

// Saves under a name of so many bytes.
fn save_named(
    rt: &impl Host,
    name: &[u8; PATH_MAX],
    length: usize,
    bytes: &[u8],
    mode: u32,
) -> Result<(), Unsaved> {
    let s: &[u8] = name;
    save(rt, part(s, 0, length), bytes, mode)
}

// Saves under a name, or where the link of that name leads, with the mode of the file that was read.
fn saved(
    rt: &impl Host,
    path: &[u8],
    target: &[u8],
    bytes: &[u8],
) -> io::Result<Result<(), Unsaved>> {
    let own = known(rt, path)?;
    let mut name = [0; PATH_MAX];
    let n = followed(rt, &mut name, target)?;
    Ok(save_named(rt, &name, n, bytes, own.mode % 0o1000))
}

pub fn save_as(rt: &impl Host, path: &[u8], target: &[u8], bytes: &[u8]) -> Result<(), Cannot> {
    match saved(rt, path, target, bytes) {
        Ok(saved) => told(rt, target, saved),
        Err(e) => told(rt, target, Err(unsaved_of(e.kind()))),
    }
}
