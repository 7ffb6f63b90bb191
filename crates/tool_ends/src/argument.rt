// The arguments of the run.
ghost use Rattle.std.specs.Prelude.{◌≡◌, ◌≤◌, List, ℕ, length, take};

use std::env::FillError;
use std::marker::Model;
use std::rt::Env;

// An argument as it is given, in room for 4,096 bytes: what is missing, or has no room, is empty.
#[derive(Drop)]
pub struct Argument {
    bytes: [u8; 4096],
    size: usize,
}

impl Model for Argument {
    ghost Value = { List ℕ };

    ghost view = { λ a. take a.size a.bytes };

    ghost invariant = { λ a. a.size ≤ length a.bytes };
}

impl Argument {
    // Argument i.
    pub fn at(rt: &impl Env, i: usize) -> Argument {
        let mut bytes = [0; 4096];
        match rt.arg(i, &mut bytes) {
            Ok(size) => Argument { bytes, size },
            Err(_) => Argument { bytes, size: 0 },
        }
    }

    pub fn text(&self) -> &[u8] {
        &self.bytes[..self.size]
    }
}

// Whether there is an argument i.
pub fn has_argument(rt: &impl Env, i: usize) -> bool {
    let mut given = [0u8; 1];
    match rt.arg(i, &mut given) {
        Ok(_) => true,
        Err(FillError::TooLong) => true,
        Err(FillError::NotPresent) => false,
    }
}

// How many arguments there are, with the program's name.
pub fn arg_count(rt: &impl Env) -> usize {
    for i in 0..usize::MAX {
        if !has_argument(rt, i) {
            return i;
        }
    }
    usize::MAX
}

// Whether argument i is this word; an empty one is none.
pub fn is_word(rt: &impl Env, i: usize, word: &[u8]) -> bool {
    let given = Argument::at(rt, i);
    let text = given.text();
    !text.is_empty() && text == word
}
