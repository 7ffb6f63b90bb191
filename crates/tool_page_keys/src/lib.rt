// A keyboard of 128 keys, and the names of its octaves.
#![tactic(auto)]

use tool_out::Out;
use tool_page_share::put_share;
use tool_words::put_note;

const KEYS: usize = 128;

const OCTAVE: usize = 12;

fn is_dark(n: usize) -> bool {
    let k = n % OCTAVE;
    k == 1 || k == 3 || k == 6 || k == 8 || k == 10
}

// Whether two light keys meet before this one.
fn is_parted(n: usize) -> bool {
    let k = n % OCTAVE;
    k == 0 || k == 5
}

fn put_line(out: &mut Out, n: usize) {
    if is_dark(n) {
        out.byte(b'M');
        out.number(n);
        out.text(b".5 12v8");
        return;
    }
    if is_parted(n) {
        out.byte(b'M');
        out.number(n);
        out.text(b" 0v20");
    }
}

// The lines between the light keys.
pub fn put_lines(out: &mut Out) {
    for n in 0..KEYS {
        put_line(out, n);
    }
}

fn put_dark(out: &mut Out, n: usize) {
    if !is_dark(n) {
        return;
    }
    out.byte(b'M');
    out.number(n);
    out.text(b" 0h1v12h-1z");
}

// The dark keys.
pub fn put_darks(out: &mut Out) {
    for n in 0..KEYS {
        put_dark(out, n);
    }
}

pub fn put_keyboard(out: &mut Out) {
    out.text(
        b"<svg class=\"kb\" viewBox=\"0 0 128 20\" preserveAspectRatio=\"none\" aria-hidden=\"true\"><use href=\"#keys\"/></svg>",
    );
}

// A place on the keyboard.
pub fn put_at(out: &mut Out, n: usize) {
    put_share(out, n, KEYS);
}

fn put_octave(out: &mut Out, n: usize) {
    let note = OCTAVE * (n % 16);
    out.text(b"<text x=\"");
    put_at(out, note);
    out.text(b"\" y=\"10\">");
    put_note(out, (note % 256) as u8);
    out.text(b"</text>");
}

// The names of the Cs.
pub fn put_octaves(out: &mut Out) {
    out.text(b"<svg class=\"oct\" aria-hidden=\"true\">");
    for n in 0..11 {
        put_octave(out, n);
    }
    out.text(b"</svg>");
}
