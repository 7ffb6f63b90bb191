// A mask of chord roots or of chord types, in words: `all`, `none`, `all but ..` where fewer are left out than held, else the list.
use crate::{put_chord, put_root};
use tool_out::Out;

// How many roots and types a mask has bits for, and the bit for starting by itself.
pub const ROOTS: usize = 12;

pub const TYPES: usize = 34;

pub const AUTO_START: usize = 34;

// Whether a mask has a bit.
pub fn is_held(mask: usize, bit: usize) -> bool {
    if 63 < bit {
        return false;
    }
    (mask >> bit) % 2 == 1
}

// How many of the first `count` bits a mask has.
pub fn held_of(mask: usize, count: usize) -> usize {
    let mut n: usize = 0;
    for k in 0..count {
        if is_held(mask, k) {
            n = n.saturating_add(1);
        }
    }
    n
}

// The name of a root, or of a type where there are so many.
fn put_name(out: &mut Out, count: usize, k: usize) {
    if count == ROOTS {
        put_root(out, (k % 256) as u8);
        return;
    }
    put_chord(out, (k % 256) as u8);
}

// A name behind those before it.
fn put_next(out: &mut Out, count: usize, k: usize, before: usize) {
    if 0 < before {
        out.text(b", ");
    }
    put_name(out, count, k);
}

// The names of those that are held, or of those that are not.
fn put_those(out: &mut Out, mask: usize, count: usize, is_those_held: bool) {
    let mut before: usize = 0;
    for k in 0..count {
        if is_held(mask, k) == is_those_held {
            put_next(out, count, k, before);
            before = before.saturating_add(1);
        }
    }
}

// The words for a mask of so many bits.
pub fn put_mask(out: &mut Out, mask: usize, count: usize) {
    let held = held_of(mask, count);
    let left_out = count.saturating_sub(held);
    if left_out == 0 {
        out.text(b"all");
        return;
    }
    if held == 0 {
        out.text(b"none");
        return;
    }
    if left_out < held {
        out.text(b"all but ");
        put_those(out, mask, count, false);
        return;
    }
    put_those(out, mask, count, true);
}

// A chord mask with what else it says.
pub fn put_chords(out: &mut Out, mask: usize) {
    put_mask(out, mask, TYPES);
    if is_held(mask, AUTO_START) {
        out.text(b"; auto start");
    }
}
