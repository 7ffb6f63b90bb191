// A row printed: each cell in its column, longer ones cut into lines inside it, and no spaces at a line's end.
use crate::cut::{line_end, next_line};
use crate::{COLUMNS, column_place, width_of};
use tool_bytes::part;
use tool_out::Out;
use tool_out::words::trimmed;

fn set(places: &mut [usize; COLUMNS], k: usize, at: usize) {
    if k < COLUMNS {
        places[k] = at;
    }
}

// Where the cells of a row begin and end.
fn split(s: &[u8], from: &mut [usize; COLUMNS], ends: &mut [usize; COLUMNS]) {
    let mut k: usize = 0;
    for i in 0..s.len() {
        if s[i] == 0 {
            k = k.saturating_add(1);
            set(from, k, i.saturating_add(1));
        }
        set(ends, k, i.saturating_add(1));
    }
}

// Whether a cell has lines left.
fn is_more(from: &[usize; COLUMNS], ends: &[usize; COLUMNS]) -> bool {
    for k in 0..COLUMNS {
        if from[k] < ends[k] {
            return true;
        }
    }
    false
}

// A piece of a cell behind what the line has up to column x; where the line then stands.
fn put_piece(
    out: &mut Out,
    piece: &[u8],
    x: usize,
    place: usize,
    width: usize,
    is_right: bool,
) -> usize {
    let words = trimmed(piece);
    if words.is_empty() {
        return x;
    }
    let mut begin = place;
    if is_right {
        begin = place.saturating_add(width.saturating_sub(words.len()));
    }
    out.pad(x, begin);
    out.text(words);
    begin.saturating_add(words.len())
}

// The next line of the cell that has from..end of a text left; where the line then stands. What is left of the cell begins behind it.
fn put_cell(
    out: &mut Out,
    s: &[u8],
    from: &mut usize,
    end: usize,
    x: usize,
    place: usize,
    width: usize,
    is_right: bool,
) -> usize {
    let at = *from;
    if end <= at {
        return x;
    }
    let ended = line_end(s, at, end, width, true);
    *from = next_line(s, ended, end);
    put_piece(
        out,
        part(s, at, ended.saturating_sub(at)),
        x,
        place,
        width,
        is_right,
    )
}

// A line of the row.
fn put_line(
    out: &mut Out,
    s: &[u8],
    from: &mut [usize; COLUMNS],
    ends: &[usize; COLUMNS],
    widths: &[usize; COLUMNS],
    indent: usize,
    rights: [bool; COLUMNS],
) {
    let mut x: usize = 0;
    for k in 0..COLUMNS {
        let place = column_place(widths, indent, k);
        let mut at = from[k];
        x = put_cell(
            out,
            s,
            &mut at,
            ends[k],
            x,
            place,
            width_of(widths, k),
            rights[k],
        );
        from[k] = at;
    }
    out.end_line();
}

// The row that a writer in memory holds.
pub fn put_row(
    out: &mut Out,
    row: &Out,
    widths: &[usize; COLUMNS],
    indent: usize,
    rights: [bool; COLUMNS],
) {
    let s = row.held();
    let mut from = [0usize; COLUMNS];
    let mut ends = [0usize; COLUMNS];
    split(s, &mut from, &mut ends);
    for _ in 0..s.len() {
        put_line(out, s, &mut from, &ends, widths, indent, rights);
        if !is_more(&from, &ends) {
            return;
        }
    }
}
