// The words of a script's line: numbers, BYTES and hex digits.
#![tactic(auto)]

pub mod bytes;
pub mod hex;
pub mod word;
