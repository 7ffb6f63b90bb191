// The verbs of the bench `calls` that read a body or a file: each takes its words, makes one call of the library and prints the answer. None, with nothing printed, is a line that has other words.
#![tactic(auto)]

pub mod asks;
pub mod checks;
pub mod finds;
