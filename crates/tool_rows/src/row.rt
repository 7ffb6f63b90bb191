// A row: a record's bytes as the file has them, its edition, and the value of its Cntt.
use casm::bytes::{bytes_of, edition_of};
use layout::edition::Edition;
use layout::record::{Form, Record, SecondTable};
use layout::size::SECOND_RECORD;
use tool_bytes::byte_at;
use tool_words::fields::{SET, SETS};

#[derive(Clone, Copy)]
pub struct Row {
    pub bytes: [u8; SECOND_RECORD],
    pub edition: Edition,
    pub second: SecondTable,
}

// The value of a record's Cntt.
fn second_of(form: Form) -> SecondTable {
    match form {
        Form::One(x) => x.second,
        Form::Three(_) => None,
    }
}

impl From<Record> for Row {
    fn from(r: Record) -> Row {
        Row {
            bytes: bytes_of(r),
            edition: edition_of(r),
            second: second_of(r.form),
        }
    }
}

impl Row {
    pub fn blank() -> Row {
        Row {
            bytes: [0; SECOND_RECORD],
            edition: Edition::First,
            second: None,
        }
    }

    pub fn set_byte(&mut self, i: usize, value: u8) {
        if i < SECOND_RECORD {
            self.bytes[i] = value;
        }
    }

    // Byte i, 0 where there is none.
    pub fn byte(&self, i: usize) -> u8 {
        byte_at(&self.bytes, i)
    }

    // n bytes from byte i on.
    pub fn part(&self, i: usize, n: usize) -> &[u8] {
        tool_bytes::part(&self.bytes, i, n)
    }

    pub fn is_second(&self) -> bool {
        matches!(self.edition, Edition::Second)
    }

    // The voice name: bytes 1-8.
    pub fn voice(&self) -> &[u8] {
        self.part(1, 8)
    }

    // The source channel as people count it.
    pub fn channel(&self) -> usize {
        (self.byte(0) as usize).saturating_add(1)
    }

    // Bytes 11-12 and 13-17: the masks.
    pub fn root_mask(&self) -> usize {
        u16::from_be_bytes([self.byte(11), self.byte(12)]) as usize
    }

    pub fn chord_mask(&self) -> usize {
        u64::from_be_bytes([
            0,
            0,
            0,
            self.byte(13),
            self.byte(14),
            self.byte(15),
            self.byte(16),
            self.byte(17),
        ]) as usize
    }

    // Where set number `set` begins: the one set of a Ctab, or one of the three of a Ctb2.
    pub fn set_place(&self, set: usize) -> usize {
        if !self.is_second() {
            return SET;
        }
        if 2 < set {
            return SETS;
        }
        SETS + 6 * set
    }

    // Whether two sets are the same six bytes.
    fn is_same_set(&self, a: usize, b: usize) -> bool {
        let x = self.part(self.set_place(a), 6);
        let y = self.part(self.set_place(b), 6);
        x == y
    }

    // Whether one set stands for all: a Ctab's, or three of a Ctb2 that are the same.
    pub fn is_one_set(&self) -> bool {
        !self.is_second() || self.is_same_set(0, 1) && self.is_same_set(0, 2)
    }
}
