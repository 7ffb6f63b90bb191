// The limits of document 01.

// Bytes of a style file, and of a CASM body.
pub const FILE: usize = 1048576;

pub const BODY: usize = 32768;
// Bytes of a file that the program `list` takes.
pub const LISTED: usize = 65536;
// Groups of a body.
pub const GROUPS: usize = 32;
// Source channels, and so the records of a group.
pub const CHANNELS: usize = 16;
// Bytes of an Sdec's text, and of a part name.
pub const TEXT: usize = 255;

pub const NAME: usize = 16;
// Chord roots, chord types and notes: the highest.
pub const ROOT: u8 = 11;

pub const KIND: u8 = 33;

pub const NOTE: u8 = 127;
