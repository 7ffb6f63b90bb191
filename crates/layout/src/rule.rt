// The transposition rules that are asked for by their number (000; document 02, §4).

// Root fixed: a note stays where it is.
pub const FIXED: u8 = 1;
// The second edition's third rule: no note is placed under it, and its tables are fewer.
pub const THIRD: u8 = 2;
