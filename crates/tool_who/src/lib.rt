// Who plays, asked of the library: under one chord, and under each of the 408; and why a channel does not.
#![tactic(auto)]

use casm::questions::who_plays;
use layout::record::SourceChannel;
use tool_out::Out;
use tool_rows::row::Row;
use tool_words::masks::{AUTO_START, is_held};

// A mark for each source channel.
pub const MARKS: usize = 16;

// A count for each chord: twelve roots a type.
pub const CHORDS: usize = 408;

pub fn no_marks() -> [bool; MARKS] {
    [false; MARKS]
}

pub fn no_counts() -> [usize; CHORDS] {
    [0; CHORDS]
}

fn mark(marks: &mut [bool; MARKS], channel: SourceChannel) {
    let n = channel.0 as usize;
    if n < MARKS {
        marks[n] = true;
    }
}

// Marks the channels of a part that play under a chord. How many they are.
pub fn mark_playing(
    marks: &mut [bool; MARKS],
    body: &[u8],
    name: &[u8],
    root: u8,
    kind: u8,
) -> usize {
    let played = who_plays(body, name, root, kind);
    let channels = played.channels;
    let count = played.count.min(16);
    for channel in channels.iter().take(count) {
        mark(marks, *channel);
    }
    count
}

// Counts who plays under each chord, and marks who plays under one of them.
pub fn count_all(
    counts: &mut [usize; CHORDS],
    marks: &mut [bool; MARKS],
    body: &[u8],
    name: &[u8],
) {
    for k in 0..408usize {
        let n = mark_playing(marks, body, name, (k % 12) as u8, (k / 12 % 34) as u8);
        counts[k] = n;
    }
}

// How many play under a chord, 0 where it is none.
pub fn count_at(counts: &[usize; CHORDS], root: usize, kind: usize) -> usize {
    if 11 < root {
        return 0;
    }
    if 33 < kind {
        return 0;
    }
    counts[12 * kind + root]
}

// Whether the channel of a row is marked.
pub fn is_marked(marks: &[bool; MARKS], row: &Row) -> bool {
    let n = row.byte(0) as usize;
    n < MARKS && marks[n]
}

pub fn is_auto(row: &Row) -> bool {
    is_held(row.chord_mask(), AUTO_START)
}

// Which of its masks keeps the channel of a row from playing under a chord.
pub fn put_why(out: &mut Out, row: &Row, root: u8, kind: u8) {
    out.text(b"by its ");
    let is_root = is_held(row.root_mask(), root as usize);
    let is_kind = is_held(row.chord_mask(), kind as usize);
    if is_root {
        out.text(b"chord type");
        return;
    }
    out.text(b"root");
    if !is_kind {
        out.text(b" and chord type");
    }
}
