// The verbs of the bench `calls` that take or give the records of a whole group: each takes its words, makes one call of the library and prints the answer.
#![tactic(auto)]

pub mod groups;
pub mod news;
