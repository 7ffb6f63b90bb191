// Numbers: in decimal and in hex, in columns, grouped, counted.
use crate::Out;

// The digits of a byte in hex, and the same in capitals.
const LOWER: [u8; 16] = *b"0123456789abcdef";

const UPPER: [u8; 16] = *b"0123456789ABCDEF";

impl Out {
    fn pair_of(&mut self, digits: &[u8; 16], b: u8) {
        self.byte(digits[(b / 16) as usize]);
        self.byte(digits[(b % 16) as usize]);
    }

    // A byte in hex.
    pub fn pair(&mut self, b: u8) {
        let digits = LOWER;
        self.pair_of(&digits, b);
    }

    // The same in capitals, as the documents write a byte.
    pub fn upper_pair(&mut self, b: u8) {
        let digits = UPPER;
        self.pair_of(&digits, b);
    }

    // A number in decimal, right-aligned in a width.
    pub fn number_in(&mut self, n: usize, width: usize) {
        let mut digits = [0u8; 20];
        let count = io::decimal(n as u64, &mut digits);
        self.pad(count, width);
        self.text(&digits[..count]);
    }

    pub fn number(&mut self, n: usize) {
        self.number_in(n, 0);
    }

    // A number in hex, with zeros in front up to so many digits.
    pub fn zeros(&mut self, n: usize, width: usize) {
        let mut digits = [0u8; 16];
        let count = io::hex(n as u64, width, &mut digits);
        self.text(&digits[..count]);
    }

    // A number in hex with 0x before it.
    pub fn hex(&mut self, n: usize) {
        self.text(b"0x");
        self.zeros(n, 1);
    }

    // A comma and the last three digits, with zeros in front.
    fn comma_three(&mut self, n: usize) {
        let d = n % 1000;
        self.byte(b',');
        if d < 100 {
            self.byte(b'0');
        }
        if d < 10 {
            self.byte(b'0');
        }
        self.number(d);
    }

    // A number with a comma before every three digits; the lengths of a file have four bytes, so at most three of them.
    pub fn grouped(&mut self, n: usize) {
        if n < 1000 {
            self.number(n);
            return;
        }
        if n < 1000000 {
            self.number(n / 1000);
            self.comma_three(n);
            return;
        }
        if n < 1000000000 {
            self.number(n / 1000000);
            self.comma_three(n / 1000);
            self.comma_three(n);
            return;
        }
        self.number(n / 1000000000);
        self.comma_three(n / 1000000);
        self.comma_three(n / 1000);
        self.comma_three(n);
    }

    // How many of something, `1 byte` or `1,736 bytes`.
    pub fn count(&mut self, n: usize, one: &[u8], more: &[u8]) {
        self.grouped(n);
        self.byte(b' ');
        if n == 1 {
            self.text(one);
            return;
        }
        self.text(more);
    }

    // A place in decimal and in hex: `56 (0x38)`.
    pub fn place(&mut self, at: usize) {
        self.number(at);
        self.text(b" (");
        self.hex(at);
        self.byte(b')');
    }
}
