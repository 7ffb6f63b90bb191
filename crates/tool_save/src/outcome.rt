// Why a file was not saved, in words.
use std::io::ErrorKind;

#[derive(Clone, Copy)]
pub enum Unsaved {
    NoFolder,
    Forbidden,
    Full,
    LongName,
    Directory,
    Special,
    Unwritten,
}

impl Unsaved {
    pub fn words(self) -> &'static [u8] {
        match self {
            Unsaved::NoFolder => b"no such folder",
            Unsaved::Forbidden => b"it may not be written",
            Unsaved::Full => b"the disk is full",
            Unsaved::LongName => b"its name is too long",
            Unsaved::Directory => b"a directory; expected a file",
            Unsaved::Special => b"a pipe or a device; expected a file",
            Unsaved::Unwritten => b"it cannot be written",
        }
    }
}

// What an error of a call says.
pub fn unsaved_of(kind: ErrorKind) -> Unsaved {
    match kind {
        ErrorKind::NotFound | ErrorKind::NotADirectory => Unsaved::NoFolder,
        ErrorKind::PermissionDenied | ErrorKind::ReadOnlyFilesystem => Unsaved::Forbidden,
        ErrorKind::StorageFull => Unsaved::Full,
        ErrorKind::InvalidFilename => Unsaved::LongName,
        ErrorKind::IsADirectory => Unsaved::Directory,
        _ => Unsaved::Unwritten,
    }
}

// The kinds of a file that its mode names.
const KIND: u32 = 0o10000;

const REGULAR: u32 = 0o10;

const FOLDER: u32 = 0o4;

// Whether a file of this kind may be replaced.
pub fn replaceable(mode: u32) -> Result<(), Unsaved> {
    match mode / KIND {
        REGULAR => Ok(()),
        FOLDER => Err(Unsaved::Directory),
        _ => Err(Unsaved::Special),
    }
}
