// The file that a link leads to, so that the file is replaced and not the link.
use crate::{PATH_MAX, append, folder, held};
use std::io::ErrorKind;
use std::rt::Files;
use std::{fs, io};
use tool_stat::path_text;

// How many bytes the link at a path says; None where there is no link, or one that says nothing.
fn read_link<R: Files + AllocGlobal>(
    rt: &R,
    path: &[u8],
    text: &mut [u8; PATH_MAX],
) -> io::Result<Option<usize>> {
    match fs::read_link(rt, path_text(path)?) {
        Ok(says) => Ok(Some(append(text, 0, says.as_str().as_bytes())).filter(|&n| 0 < n)),
        Err(e) => match e.kind() {
            ErrorKind::InvalidInput | ErrorKind::NotFound => Ok(None),
            _ => Err(e),
        },
    }
}

// The path that a link at a path means: what it says counts from the link's folder.
fn joined(next: &mut [u8; PATH_MAX], path: &[u8], says: &[u8]) -> usize {
    if let [b'/', ..] = says {
        return append(next, 0, says);
    }
    let after = match folder(path) {
        Some(folder) => append(next, 0, folder),
        None => 0,
    };
    append(next, after, says)
}

// Puts what the link of that name means in its place, and answers how long it is; None where it is no link.
fn step<R: Files + AllocGlobal>(
    rt: &R,
    name: &mut [u8; PATH_MAX],
    length: usize,
) -> io::Result<Option<usize>> {
    let mut says = [0; PATH_MAX];
    let Some(n) = read_link(rt, held(name, length), &mut says)? else {
        return Ok(None);
    };
    let mut next = [0; PATH_MAX];
    let m = joined(&mut next, held(name, length), held(&says, n));
    Ok(Some(append(name, 0, held(&next, m))))
}

// The path with its last link followed, and that one's, up to 40.
pub fn followed<R: Files + AllocGlobal>(
    rt: &R,
    name: &mut [u8; PATH_MAX],
    path: &[u8],
) -> io::Result<usize> {
    let mut length = append(name, 0, path);
    for _ in 0..40 {
        let Some(next) = step(rt, name, length)? else {
            break;
        };
        length = next;
    }
    Ok(length)
}
