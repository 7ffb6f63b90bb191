// How each byte of a text is put: as it is, or so that a terminal, a JSON string or an HTML text shows it, or as two digits.
use crate::Out;

#[derive(Clone, Copy, PartialEq, Eq)]
pub enum How {
    Plain,
    Shown,
    Json,
    Html,
    Pairs,
}

fn is_printable(b: u8) -> bool {
    0x20 <= b && b <= 0x7E
}

impl Out {
    // A byte that a terminal is never sent as it is: `\xNN`.
    fn escaped(&mut self, b: u8) {
        self.text(b"\\x");
        self.pair(b);
    }

    fn shown_byte(&mut self, b: u8) {
        if is_printable(b) {
            self.byte(b);
            return;
        }
        self.escaped(b);
    }

    // Inside a JSON string: as it is shown, and quotes and backslashes escaped, so that the string is the shown text.
    fn json_byte(&mut self, b: u8) {
        if b == b'"' || b == b'\\' || !is_printable(b) {
            self.byte(b'\\');
        }
        self.shown_byte(b);
    }

    // What HTML takes for its own, by its name.
    fn html_byte(&mut self, b: u8) {
        match b {
            b'<' => self.text(b"&lt;"),
            b'>' => self.text(b"&gt;"),
            b'&' => self.text(b"&amp;"),
            b'"' => self.text(b"&quot;"),
            b'\'' => self.text(b"&#x27;"),
            _ => self.shown_byte(b),
        }
    }

    fn byte_as(&mut self, how: How, b: u8) {
        match how {
            How::Plain => self.byte(b),
            How::Shown => self.shown_byte(b),
            How::Json => self.json_byte(b),
            How::Html => self.html_byte(b),
            How::Pairs => self.pair(b),
        }
    }

    // A text, each byte put as `how` says.
    pub fn text_as(&mut self, how: How, text: &[u8]) {
        for b in text {
            self.byte_as(how, *b);
        }
    }
}
