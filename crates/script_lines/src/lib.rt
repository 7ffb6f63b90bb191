// The lines of a script, which a reader gives one by one.
#![tactic(auto)]

ghost use Rattle.std.specs.Prelude.{◌+◌, ◌≤◌, length};

use std::io::Read;

// The most characters that a line may have.
pub const MOST: usize = 2200000;

// Room for the longest line and a block of 65,536 characters behind it.
pub const TEXT: usize = 2265536;

// text[from..to] is read and not answered, and has no newline before `seen`.
#[derive(Clone, Copy)]
pub struct Reader {
    pub from: usize,
    pub seen: usize,
    pub to: usize,
    // Characters of this line were dropped: there were too many.
    pub overlong: bool,
    // The input has no more.
    pub ended: bool,
    ghost first: { from ≤ seen },
    ghost then: { seen ≤ to },
    ghost last: { to ≤ 2265536 },
}

// The lines of an input, and how far they are read. No `BufRead`: it takes the heap, and a line of any length.
#[derive(Drop)]
pub struct Lines<R> {
    input: R,
    text: [u8; TEXT],
    at: Reader,
}

// What a step found.
#[derive(Drop)]
pub enum Step<'t> {
    // A block was read, and a line may be whole now.
    More,
    // A line, without its newline.
    Line(&'t [u8]),
    // A line of too many characters.
    Overlong,
    // The end of the script.
    Done,
}

impl<R: Read> Lines<R> {
    pub fn new(input: R) -> Lines<R> {
        Lines {
            input,
            text: [0; TEXT],
            at: Reader {
                from: 0,
                seen: 0,
                to: 0,
                overlong: false,
                ended: false,
            },
        }
    }

    // The next line, or the next block where no line is whole.
    pub fn next(&mut self) -> Step<'_> {
        let seen = self.at.seen;
        let unseen = &self.text[seen..self.at.to];
        match unseen.iter().position(|b| *b == b'\n') {
            Some(count) => self.line_to(seen + count, seen + count + 1),
            None if self.at.ended => self.last(),
            None => {
                self.read_block();
                Step::More
            },
        }
    }

    // The line that ends at `end`; what is read behind it begins at `behind`.
    fn line_to(&mut self, end: usize, behind: usize) -> Step<'_>
        requires from { self.old.at.from ≤ end }
        requires order { end ≤ behind }
        requires to { behind ≤ self.old.at.to }
    {
        let from = self.at.from;
        let overlong = self.at.overlong || end - from > MOST;
        self.at.seen = behind;
        self.at.from = behind;
        self.at.overlong = false;
        if overlong {
            return Step::Overlong;
        }
        let kept = &*self;
        Step::Line(&kept.text[from..end])
    }

    // What is left where the input has ended: a last line, which needs no newline, or nothing.
    fn last(&mut self) -> Step<'_> {
        let to = self.at.to;
        if self.at.overlong || self.at.from < to {
            return self.line_to(to, to);
        }
        Step::Done
    }

    // Reads a block. What is read of a line that is too long already is dropped; else it goes to the text's start, and a block has room behind it.
    fn read_block(&mut self) {
        let mut held = self.at.to - self.at.from;
        if held > MOST {
            held = 0;
            self.at.overlong = true;
        } else {
            self.text.copy_within(self.at.from..self.at.to, 0);
        }
        // No characters come at the input's end, and where a read fails.
        let count = self.input.read(&mut self.text[held..]).unwrap_or(0);
        self.at.from = 0;
        self.at.seen = held;
        self.at.to = held + count;
        self.at.ended = count == 0;
    }
}
