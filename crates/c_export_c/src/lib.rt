// The archive for C: each call of `c_export`, exported under its name with the same clauses.
#![tactic(auto)]

pub mod asking;
pub mod changing;
pub mod checking;
pub mod reading;
pub mod tables;
