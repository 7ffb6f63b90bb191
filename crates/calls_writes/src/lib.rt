// The verbs of the bench `calls` that take, give or change one record: each takes its words, makes one call of the library and prints the answer.
#![tactic(auto)]

pub mod alone;
pub mod edits;
