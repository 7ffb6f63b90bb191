// The sizes of document 01, in bytes.

// The headers of a group and of its Sdec, before the text.
pub const HEADERS: usize = 16;
// A record in the file, and of it what is held in memory.
pub const RECORD: usize = 27;

pub const HELD: usize = 26;
// A record of the second edition in the file; all of it is held.
pub const SECOND_RECORD: usize = 47;
// A Ctab with its header: one stands so far from the next; and a Ctb2.
pub const CTAB_STRIDE: usize = 35;

pub const CTB2_STRIDE: usize = 55;
// What a Cntt holds, and a Cntt with its header.
pub const CNTT_BYTES: usize = 2;

pub const CNTT_STRIDE: usize = 10;
// A record as it crosses to C: its edition, its bytes, whether there is a Cntt, its value and its position.
pub const ROW: usize = 51;
