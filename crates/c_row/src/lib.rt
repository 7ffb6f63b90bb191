// What crosses to C and is no answer: a channel record as a row of 51 bytes, and source channels as numbers.
#![tactic(auto)]

pub mod channels;
pub mod flat;
pub mod row;
