// The tags of document 01 as numbers: their four bytes, high byte first.
pub const MTHD: usize = 0x4D54_6864;

pub const MTRK: usize = 0x4D54_726B;

pub const CASM: usize = 0x4341_534D;

pub const CSEG: usize = 0x4353_4547;

pub const SDEC: usize = 0x5364_6563;

pub const CTAB: usize = 0x4374_6162;

pub const CTB2: usize = 0x4374_6232;

pub const CNTT: usize = 0x436E_7474;
