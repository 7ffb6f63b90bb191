// Texts cut into lines, and rows of columns: a row is put into a writer in memory, a zero byte between its cells, measured, and printed.
#![tactic(auto)]

pub mod cut;
pub mod row;

use tool_out::Out;

// How wide a text for people is.
pub const WIDE: usize = 80;

pub const COLUMNS: usize = 8;

// Between two cells of a row: no shown text has a zero byte.
pub fn next_cell(row: &mut Out) {
    row.byte(0);
}

// A cell of column k was so wide.
fn widen(widths: &mut [usize; COLUMNS], k: usize, n: usize) {
    if k < COLUMNS {
        if widths[k] < n {
            widths[k] = n;
        }
    }
}

// Makes each column as wide as the row's cell, where it is narrower.
pub fn measure(widths: &mut [usize; COLUMNS], row: &Out) {
    let s = row.held();
    let mut k: usize = 0;
    let mut n: usize = 0;
    for i in 0..s.len() {
        if s[i] == 0 {
            k = k.saturating_add(1);
            n = 0;
        } else {
            n = n.saturating_add(1);
        }
        widen(widths, k, n);
    }
}

// A column is no wider than so much.
pub fn limit(widths: &mut [usize; COLUMNS], k: usize, most: usize) {
    if k < COLUMNS {
        if most < widths[k] {
            widths[k] = most;
        }
    }
}

pub fn width_of(widths: &[usize; COLUMNS], k: usize) -> usize {
    if k < COLUMNS {
        return widths[k];
    }
    0
}

// Where column k begins, behind an indent and two spaces a column.
pub fn column_place(widths: &[usize; COLUMNS], indent: usize, k: usize) -> usize {
    let mut at = indent;
    for i in 0..k {
        at = at.saturating_add(2).saturating_add(width_of(widths, i));
    }
    at
}

// What is left of the width for column k, and at least so much.
pub fn limit_rest(widths: &mut [usize; COLUMNS], indent: usize, k: usize, fewest: usize) {
    let left = WIDE.saturating_sub(column_place(widths, indent, k));
    if left < fewest {
        limit(widths, k, fewest);
        return;
    }
    limit(widths, k, left);
}

// The columns before the last are no wider than so much each, and the last than what is left, at least so much.
pub fn limit_all(
    widths: &mut [usize; COLUMNS],
    most: [usize; COLUMNS],
    indent: usize,
    last: usize,
) {
    for k in 0..COLUMNS {
        if k < last {
            limit(widths, k, most[k]);
        }
        if k == last {
            limit_rest(widths, indent, k, most[k]);
        }
    }
}
