// The calls of the face for programs in C (include/casm.h): numbers, lent bytes and plain structs cross, and every call takes every input.
#![tactic(auto)]

pub mod answer;
pub mod asking;
pub mod changing;
pub mod checking;
pub mod reading;
pub mod tables;
