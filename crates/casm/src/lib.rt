// The public face: every call of documents 01 and 02. A call takes every input; what it promises is one definition of the layout.
#![tactic(auto)]

pub mod bytes;
pub mod checking;
pub mod editing;
pub mod field;
pub mod list;
pub mod questions;
pub mod read;
pub mod records;
pub mod writing;
