// Words stand between single spaces, and are taken from a line one by one.
ghost use Rattle.std.specs.Prelude.{◌≤◌, IfSome};

use crate::bytes::{Room, take_bytes};

// The number that a word is in decimal, where it is one below 2^32.
pub fn number(word: &[u8]) -> Option<u32> {
    if word.is_empty() {
        return None;
    }
    let mut value = 0u32;
    for b in word {
        let digit = char::from(*b).to_digit(10)?;
        value = value.checked_mul(10)?.checked_add(digit)?;
    }
    Some(value)
}

// What is left of a line: its words from one on, or None behind the last. What is taken is None where the word is something else, or there is none.
#[derive(Drop)]
pub struct Words<'a> {
    rest: Option<&'a [u8]>,
}

impl<'a> Words<'a> {
    pub fn of(line: &'a [u8]) -> Words<'a> {
        Words { rest: Some(line) }
    }

    pub fn word(&mut self) -> Option<&'a [u8]> {
        let rest = self.rest?;
        match rest.iter().position(|b| *b == b' ') {
            Some(end) => {
                self.rest = Some(&rest[end + 1..]);
                Some(&rest[..end])
            },
            None => {
                self.rest = None;
                Some(rest)
            },
        }
    }

    // A number below 2^32.
    pub fn number(&mut self) -> Option<usize> {
        Some(number(self.word()?)? as usize)
    }

    // A number up to `most`.
    pub fn up_to(&mut self, most: usize) -> Option<usize>
        ensures { IfSome result (λ n. n ≤ most) }
    {
        let value = self.number()?;
        if value > most {
            return None;
        }
        Some(value)
    }

    // A number up to 255.
    pub fn byte(&mut self) -> Option<u8> {
        u8::try_from(number(self.word()?)?).ok()
    }

    // BYTES, put into the room from its start.
    pub fn bytes<'r>(&mut self, room: &'r mut Room) -> Option<&'r mut [u8]> {
        take_bytes(self.word()?, room)
    }

    // That no word is left.
    pub fn end(&self) -> Option<()> {
        if self.rest.is_some() {
            return None;
        }
        Some(())
    }
}
