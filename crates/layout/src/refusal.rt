// The numbers of refusal (document 01, "Numbers of refusal"; 18, document 02, §1; 21, §4), under the names of the definitions; 0 accepts.
pub const NOT_STYLE: u8 = 1;

pub const CUT: u8 = 2;

pub const OVER_LIMIT: u8 = 3;

pub const TAG_AGAIN: u8 = 4;

pub const NO_CASM: u8 = 5;

pub const BAD_TAG: u8 = 6;

pub const BAD_SIZE: u8 = 7;

pub const BAD_TEXT: u8 = 8;

pub const OUT_OF_RANGE: u8 = 9;

pub const CHANNEL_AGAIN: u8 = 10;

pub const STRAY_CNTT: u8 = 11;

pub const TOO_MANY_GROUPS: u8 = 12;

pub const NAME_AGAIN: u8 = 13;

pub const NO_ROOM: u8 = 14;

pub const NOT_THERE: u8 = 15;

pub const BAD_NUMBER: u8 = 16;

pub const ROOT_FIXED: u8 = 17;

pub const BAD_POSITIONS: u8 = 18;

pub const OTHER_EDITION: u8 = 21;

pub const READ_ONLY: u8 = 22;
