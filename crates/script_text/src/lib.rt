// The answers to a script's lines. What stands in the crates `script_..` and `calls_..` is safe and ends, and promises no more than that takes:
// that lines are taken apart and answers printed as the script's grammar says is seen where they are compared with the second program's.
#![tactic(auto)]

pub mod print;
