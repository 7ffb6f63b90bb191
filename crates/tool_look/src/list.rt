// The entries of a body: three numbers each, place, length and kind, as the salvage list has them.
use tool_bytes::{is_tag, part};

// Three numbers for each of 8,192 entries, enough for any body.
const NUMBERS: usize = 24576;

// What an entry is: a sound group, a group that is damaged, or bytes that belong to none.
#[derive(Clone, Copy, PartialEq, Eq)]
pub enum Kind {
    Sound,
    Damaged,
    Loose,
}

impl Kind {
    pub fn name(self) -> &'static [u8] {
        match self {
            Kind::Sound => b"sound",
            Kind::Damaged => b"damaged",
            Kind::Loose => b"loose",
        }
    }
}

#[derive(Clone, Copy)]
pub struct Entry {
    pub place: usize,
    pub length: usize,
    // 0 for a sound group, and else the number of its refusal.
    pub number: usize,
}

impl Entry {
    // The bytes of an entry.
    pub fn bytes<'a>(&self, body: &'a [u8]) -> &'a [u8] {
        part(body, self.place, self.length)
    }

    pub fn is_sound(&self) -> bool {
        self.number == 0
    }

    // Whether it is bytes that belong to no group: a damaged one begins with its tag.
    pub fn is_loose(&self, body: &[u8]) -> bool {
        !self.is_sound() && !is_tag(body, self.place, b"CSEG")
    }

    pub fn kind(&self, body: &[u8]) -> Kind {
        if self.is_sound() {
            return Kind::Sound;
        }
        if self.is_loose(body) {
            return Kind::Loose;
        }
        Kind::Damaged
    }
}

// The call that lists the entries is lent numbers alone, so they stand as such.
#[derive(Drop)]
pub struct List {
    numbers: [usize; NUMBERS],
}

impl List {
    pub fn new() -> List {
        List {
            numbers: [0; NUMBERS],
        }
    }

    pub fn lent(&mut self) -> &mut [usize] {
        &mut self.numbers
    }

    // Entry k, an empty one where there is none.
    pub fn at(&self, k: usize) -> Entry {
        let (entries, _) = self.numbers.as_chunks::<3>();
        match entries.get(k) {
            Some([place, length, number]) => Entry {
                place: *place,
                length: *length,
                number: *number,
            },
            None => Entry {
                place: 0,
                length: 0,
                number: 0,
            },
        }
    }

    // Puts a sound group of so many bytes down as entry k.
    pub fn put_group(&mut self, k: usize, place: usize, length: usize) {
        if NUMBERS / 3 <= k {
            return;
        }
        self.numbers[3 * k] = place;
        self.numbers[3 * k + 1] = length;
        self.numbers[3 * k + 2] = 0;
    }
}
