// Writing (document 01, "Writing and editing"): each chunk into the rest of what is left.
#![tactic(auto)]

pub mod chunks;
pub mod places;
pub mod put;
pub mod start;
