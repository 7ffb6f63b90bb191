// What crosses to C by value: the answers of the layout field by field, laid out as C lays them out (include/casm.h).

use c_row::row::Row;

// Accepted or refused.
#[repr(C)]
#[derive(Clone, Copy)]
pub struct Answer {
    pub number: u8,
    pub place: usize,
}

// How many groups, records or entries.
#[repr(C)]
#[derive(Clone, Copy)]
pub struct Count {
    pub number: u8,
    pub place: usize,
    pub count: usize,
}

// How many bytes were written, or how long a section's body or a group is.
#[repr(C)]
#[derive(Clone, Copy)]
pub struct Length {
    pub number: u8,
    pub place: usize,
    pub length: usize,
}

// The CASM section of a style file.
#[repr(C)]
#[derive(Clone, Copy)]
pub struct Section {
    pub number: u8,
    pub place: usize,
    pub tag: usize,
    pub length: usize,
}

// The number of the group that has a part.
#[repr(C)]
#[derive(Clone, Copy)]
pub struct Holder {
    pub number: u8,
    pub place: usize,
    pub group: usize,
}

// Where a group and its parts stand in the body, and the number of its edition, 0 for a group without records.
#[repr(C)]
#[derive(Clone, Copy)]
pub struct Bounds {
    pub number: u8,
    pub place: usize,
    pub at: usize,
    pub size: usize,
    pub text_at: usize,
    pub text_length: usize,
    pub records_at: usize,
    pub records: usize,
    pub cntts_at: usize,
    pub cntts: usize,
    pub edition: u8,
}

// The record of a source channel in a group: its number among the group's records, and the place of its byte 0 in the body.
#[repr(C)]
#[derive(Clone, Copy)]
pub struct Position {
    pub number: u8,
    pub place: usize,
    pub record: usize,
    pub at: usize,
}

// A part of the lent bytes.
#[repr(C)]
#[derive(Clone, Copy)]
pub struct Span {
    pub number: u8,
    pub place: usize,
    pub start: usize,
    pub length: usize,
}

// The source channels that play, in Ctab order; places past the count are 0.
#[repr(C)]
#[derive(Clone, Copy)]
pub struct Players {
    pub number: u8,
    pub place: usize,
    pub count: usize,
    pub channels: [u8; 16],
}

// The note.
#[repr(C)]
#[derive(Clone, Copy)]
pub struct Note {
    pub number: u8,
    pub place: usize,
    pub note: u8,
}

// A record after one field byte of it was set; on refusal the record as it was.
#[repr(C)]
#[derive(Clone, Copy)]
pub struct Edited {
    pub number: u8,
    pub place: usize,
    pub held: Row,
}

// Whether what came back is what was sent but for one record: 1 for yes; where it is 0 and the call accepts, the first place at which the two are unlike.
// On refusal the number of what is refused: 1 the before file, 2 the after file, 3 the before body, 4 the after body.
#[repr(C)]
#[derive(Clone, Copy)]
pub struct Check {
    pub number: u8,
    pub place: usize,
    pub which: u8,
    pub yes: u8,
    pub unlike: usize,
}

// What stands at a place: the number of the group, the number of the chunk in it, and the place of the chunk's tag.
#[repr(C)]
#[derive(Clone, Copy)]
pub struct Site {
    pub number: u8,
    pub place: usize,
    pub group: usize,
    pub child: usize,
    pub chunk: usize,
}
