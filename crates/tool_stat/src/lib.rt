// What is known of the file that a path names.
#![tactic(auto)]

pub mod file;

pub use file::Known;
use std::fs::metadata;
use std::io;
use std::io::ErrorKind;
use std::os::unix::fs::MetadataExt;
use std::rt::Files;

// A path as the text that std takes for one. A path that is no text is `ErrorKind::InvalidData`.
pub fn path_text<'a>(path: &'a [u8]) -> io::Result<&'a str> {
    match std::str::from_utf8(path) {
        Ok(text) => Ok(text),
        Err(_) => Err(io::Error::from(ErrorKind::InvalidData)),
    }
}

// What is known of the file at path, or of the one that a link there leads to; it opens nothing, so a FIFO does not make it wait.
pub fn known(rt: &impl Files, path: &[u8]) -> io::Result<Known> {
    let data = metadata(rt, path_text(path)?)?;
    Ok(Known {
        mode: data.mode(),
        device: data.dev(),
        number: data.ino(),
    })
}
