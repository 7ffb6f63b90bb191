// A writer in memory whose methods take every input, so that code which prints needs no proof; what waits in it is written by `flush`, which alone needs a handle.
// Where memory runs out the writer has failed, and is so from then on: what it was to write is not written.
#![tactic(auto)]

pub mod numbers;
pub mod shown;
pub mod words;

use std::alloc::{AllocError, Global};

// Where a writer writes: to standard output, to standard error, or nowhere, so that what was put can be looked at and put again.
#[derive(Clone, Copy)]
pub enum To {
    Output,
    Errors,
    Memory,
}

#[derive(Drop)]
pub struct Out {
    to: To,
    has_failed: bool,
    memory: Result<(), AllocError>,
    waiting: Vec<u8>,
}

// Standard error takes text: what is not, is not written.
fn is_put_to_errors(rt: &impl Eprint, bytes: &[u8]) -> bool {
    match std::str::from_utf8(bytes) {
        Ok(words) => rt.eprint(words).is_ok(),
        Err(_) => false,
    }
}

fn is_put<R: Print + Eprint>(rt: &R, to: To, bytes: &[u8]) -> bool {
    match to {
        To::Output => rt.write_all(bytes).is_ok(),
        To::Errors => is_put_to_errors(rt, bytes),
        To::Memory => true,
    }
}

// How much waits at most where much is written in turn.
const BLOCK: usize = 65536;

impl Out {
    pub fn new(alloc: Global, to: To) -> Out {
        Out {
            to,
            has_failed: false,
            memory: Ok(()),
            waiting: Vec::new(alloc),
        }
    }

    // A writer in memory, for what this one is to write later.
    pub fn memory_for(&self) -> Out {
        let alloc = *self.waiting.allocator();
        Out::new(alloc, To::Memory)
    }

    // Whether a write failed, or memory ran out. From then on nothing is written.
    pub fn is_failed(&self) -> bool {
        self.has_failed || self.memory.is_err()
    }

    // Where a writer failed whose words go into this one, this one has failed too.
    pub fn fail_with(&mut self, words: &Out) {
        if words.memory.is_err() {
            self.memory = words.memory;
        }
    }

    // What waits, as it stands.
    pub fn held(&self) -> &[u8] {
        self.waiting.as_slice()
    }

    // The same, where memory sufficed for all that was put.
    pub fn whole(&self) -> Result<&[u8], AllocError> {
        self.memory?;
        Ok(self.held())
    }

    // Leaves off what waits.
    pub fn clear(&mut self) {
        self.waiting.clear();
    }

    // Writes what waits.
    pub fn flush<R: Print + Eprint>(&mut self, rt: &R) {
        if !self.is_failed() {
            let is_written = is_put(rt, self.to, self.held());
            self.has_failed = !is_written;
        }
        self.clear();
    }

    // Writes what waits, where that is a block.
    pub fn flush_block<R: Print + Eprint>(&mut self, rt: &R) {
        if BLOCK <= self.held().len() {
            self.flush(rt);
        }
    }

    pub fn byte(&mut self, b: u8) {
        if let Err(e) = self.waiting.push(b) {
            self.memory = Err(AllocError::from(e));
        }
    }

    // A text as it is.
    pub fn text(&mut self, text: &[u8]) {
        if let Err(e) = self.waiting.extend_from_slice(text) {
            self.memory = Err(e);
        }
    }

    pub fn end_line(&mut self) {
        self.byte(b'\n');
    }

    // The byte, `count` times.
    pub fn fill(&mut self, b: u8, count: usize) {
        for _ in 0..count {
            self.byte(b);
        }
    }

    // Spaces from a column to one further on; none where it is passed.
    pub fn pad(&mut self, from: usize, to: usize) {
        if from < to {
            self.fill(b' ', to - from);
        }
    }

    // A text, and spaces behind it up to a width.
    pub fn padded(&mut self, words: &[u8], width: usize) {
        self.text(words);
        self.pad(words.len(), width);
    }
}
