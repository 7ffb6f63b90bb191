// The answers to a script, written in large blocks: what is printed waits in `text`, and is written where that is full, and at the end.
ghost use Rattle.std.specs.Prelude.{◌≡◌, ◌≤◌};

use std::io::Stdout;

pub const OUT: usize = 65536;

const DIGITS: [u8; 16] = *b"0123456789abcdef";

// What waits, and where it is written. No `BufWriter` and no `write!`: the one takes the heap, and both answer each write with a Result where there is no one left to tell.
#[derive(Drop)]
pub struct Printed {
    text: [u8; OUT],
    length: usize,
    to: Stdout,
    ghost within: { length ≤ 65536 },
}

impl Printed {
    pub fn new(to: Stdout) -> Printed {
        Printed {
            text: [0; OUT],
            length: 0,
            to,
        }
    }

    // Writes what waits.
    pub fn flush(&mut self)
        ensures { self.new.length ≡ 0 }
    {
        let _ = self.to.write_all(&self.text[..self.length]);
        self.length = 0;
    }

    pub fn byte(&mut self, b: u8) {
        if self.length == OUT {
            self.flush();
        }
        self.text[self.length] = b;
        self.length += 1;
    }

    pub fn text(&mut self, text: &[u8]) {
        for b in text {
            self.byte(*b);
        }
    }

    // The number, in decimal.
    pub fn digits(&mut self, n: usize) {
        let mut digits = [0u8; 20];
        let count = io::decimal(n as u64, &mut digits);
        self.text(&digits[..count]);
    }

    // A space and the number.
    pub fn number(&mut self, n: usize) {
        self.byte(b' ');
        self.digits(n);
    }

    // Bytes as pairs of hex digits in lower case, `-` where there are none.
    pub fn bytes(&mut self, part: &[u8]) {
        if part.is_empty() {
            self.byte(b'-');
        }
        for b in part {
            self.byte(DIGITS[usize::from(*b / 16)]);
            self.byte(DIGITS[usize::from(*b % 16)]);
        }
    }

    // A refusal, or `ok`, up to what was asked for; and whether it is the latter. It comes as a number and a place, 0 for none, as the answers that cross to C have it.
    pub fn answer(&mut self, number: u8, place: usize) -> bool {
        if number == 0 {
            self.text(b"ok");
            return true;
        }
        self.text(b"refused");
        self.number(usize::from(number));
        self.number(place);
        false
    }

    // A whole answer: a refusal, or the numbers that were asked for.
    pub fn told(&mut self, number: u8, place: usize, told: &[usize]) {
        if self.answer(number, place) {
            for n in told {
                self.number(*n);
            }
        }
        self.end();
    }

    // Whether lent memory that an answer must not touch was kept, and the answer's end.
    pub fn kept(&mut self, kept: bool) {
        self.text(if kept { b" kept\n" } else { b" changed\n" });
    }

    // The end of an answer.
    pub fn end(&mut self) {
        self.byte(b'\n');
    }

    // The answer to a line that breaks the script's grammar.
    pub fn bad(&mut self) {
        self.text(b"bad\n");
    }
}
