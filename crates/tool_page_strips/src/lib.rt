// The strips of a channel: a cell for each chord type, and the roots; filled where the channel plays.
#![tactic(auto)]

use tool_out::Out;
use tool_words::masks::{AUTO_START, ROOTS, TYPES, held_of, is_held, put_chords, put_mask};
use tool_words::{put_chord, put_root};

// The wider gaps before the types of a family: minor, diminished, seventh, augmented, the others.
fn gaps(t: usize) -> usize {
    if t < 8 {
        return 0;
    }
    if t < 17 {
        return 4;
    }
    if t < 19 {
        return 8;
    }
    if t < 28 {
        return 12;
    }
    if t < 30 {
        return 16;
    }
    20
}

// Where the cell of a type begins.
fn cell_place(t: usize) -> usize {
    (10 * (t % 64)).saturating_add(gaps(t))
}

fn put_cell(out: &mut Out, t: usize) {
    out.byte(b'M');
    out.number(cell_place(t));
    out.text(b".5 .5h8v13h-8z");
}

// The cells of the types that a mask holds.
pub fn put_cells(out: &mut Out, mask: usize) {
    for t in 0..TYPES {
        if is_held(mask, t) {
            put_cell(out, t);
        }
    }
}

fn put_type(out: &mut Out, t: usize) {
    out.text(b"<text transform=\"translate(");
    out.number(cell_place(t).saturating_add(7));
    out.text(b".2 43) rotate(-90)\">");
    put_chord(out, (t % 256) as u8);
    out.text(b"</text>");
}

// The names of the types, each above its cell.
pub fn put_types(out: &mut Out) {
    out.text(b"<svg class=\"strip\" viewBox=\"0 0 360 44\" aria-hidden=\"true\">");
    for t in 0..TYPES {
        put_type(out, t);
    }
    out.text(b"</svg>");
}

fn put_held(out: &mut Out, mask: usize) {
    if held_of(mask, TYPES) == 0 {
        return;
    }
    out.text(b"<path class=\"held\" d=\"");
    put_cells(out, mask);
    out.text(b"\"/>");
}

// The chord types of a channel.
pub fn put_chord_strip(out: &mut Out, mask: usize) {
    out.text(
        b"<svg class=\"strip\" viewBox=\"0 0 360 14\" role=\"img\" aria-label=\"Chord types: ",
    );
    put_chords(out, mask);
    out.text(b"\"><use href=\"#types\" class=\"grid\"/>");
    put_held(out, mask);
    out.text(b"</svg><p class=\"words\"><b>Chord types</b> ");
    put_mask(out, mask, TYPES);
    if is_held(mask, AUTO_START) {
        out.text(b" <span class=\"tag\">auto start</span>");
    }
    out.text(b"</p>");
}

fn put_cell_of_root(out: &mut Out, r: usize, is_filled: bool) {
    out.text(b"<i");
    if is_filled {
        out.text(b" class=\"y\"");
    }
    out.byte(b'>');
    put_root(out, (r % 256) as u8);
    out.text(b"</i>");
}

fn put_cells_of_roots(out: &mut Out, mask: usize) {
    for r in 0..ROOTS {
        put_cell_of_root(out, r, is_held(mask, r));
    }
}

// The roots of a channel.
pub fn put_root_strip(out: &mut Out, mask: usize) {
    out.text(b"<div class=\"rts\" role=\"img\" aria-label=\"Roots: ");
    put_mask(out, mask, ROOTS);
    out.text(b"\">");
    put_cells_of_roots(out, mask);
    out.text(b"</div><p class=\"words\"><b>Roots</b> ");
    put_mask(out, mask, ROOTS);
    out.text(b"</p>");
}
