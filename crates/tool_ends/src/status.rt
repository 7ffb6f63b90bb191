// What a run comes to.

// Done or sound; damaged, or the answer is no; cannot be done.
#[derive(Clone, Copy, PartialEq, Eq)]
pub enum Status {
    Done,
    No,
    Cannot,
}

impl Status {
    pub fn code(self) -> u8 {
        match self {
            Status::Done => 0,
            Status::No => 1,
            Status::Cannot => 2,
        }
    }

    // The same as a line.
    pub fn line(self) -> &'static [u8] {
        match self {
            Status::Done => b"0\n",
            Status::No => b"1\n",
            Status::Cannot => b"2\n",
        }
    }
}

// It cannot be done, and a line on standard error has said why.
#[derive(Clone, Copy)]
pub struct Cannot;
