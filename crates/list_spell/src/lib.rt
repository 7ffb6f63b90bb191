// Numbers and lines of the program `list`, spelt into a lent buffer.
#![tactic(auto)]

pub mod lines;
pub mod put;
