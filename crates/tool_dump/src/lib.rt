// Bytes in hex, in rows of 16 that begin where an entry does: its first rows, and the row of a marked byte with one before it and one behind.
#![tactic(auto)]

pub mod json;

use tool_bytes::{byte_at, part};
use tool_out::Out;
use tool_out::shown::How;

// A dump: which bytes of a file, how wide, and the place of the byte that is marked, where one is.
#[derive(Clone, Copy)]
pub struct Dump {
    pub start: usize,
    pub length: usize,
    pub mark: usize,
    pub is_marked: bool,
}

const ROW: usize = 16;

pub fn rows_of(dump: Dump) -> usize {
    dump.length.saturating_add(15) / ROW
}

// Whether row r is shown.
pub fn is_shown(dump: Dump, r: usize) -> bool {
    if !dump.is_marked {
        return r < 4;
    }
    if r < 3 {
        return true;
    }
    let marked = dump.mark.saturating_sub(dump.start) / ROW;
    r <= marked.saturating_add(1) && marked <= r.saturating_add(1)
}

// Where row r begins, and how many bytes it has.
pub fn row_place(dump: Dump, r: usize) -> usize {
    if dump.length < r {
        return dump.start;
    }
    if 0x1_0000_0000 < r {
        return dump.start;
    }
    dump.start.saturating_add(ROW * r)
}

pub fn row_length(dump: Dump, r: usize) -> usize {
    ROW.min(
        dump.start
            .saturating_add(dump.length)
            .saturating_sub(row_place(dump, r)),
    )
}

// What stands before byte k of a line: a bracket around the marked one.
fn put_before(out: &mut Out, how: How, k: usize, mark: usize, is_marked: bool) {
    if is_marked && k == mark {
        if how == How::Html {
            out.text(b"<mark>");
        }
        out.byte(b'[');
        return;
    }
    if is_marked && k == mark.saturating_add(1) {
        out.byte(b']');
        if how == How::Html {
            out.text(b"</mark>");
        }
        return;
    }
    out.byte(b' ');
}

fn put_cell(out: &mut Out, line: &[u8], k: usize) {
    if line.len() <= k {
        out.text(b"  ");
        return;
    }
    out.pair(byte_at(line, k));
}

// The bytes of a line in hex, `across` of them where it is whole.
fn put_cells(out: &mut Out, how: How, line: &[u8], across: usize, mark: usize, is_marked: bool) {
    for k in 0..across {
        put_before(out, how, k, mark, is_marked);
        put_cell(out, line, k);
    }
    put_before(out, how, across, mark, is_marked);
}

fn plain(b: u8) -> u8 {
    if 0x20 <= b && b <= 0x7E {
        return b;
    }
    b'.'
}

// .. and as letters.
fn put_letters(out: &mut Out, how: How, line: &[u8]) {
    for k in 0..line.len() {
        put_letter(out, how, line[k]);
    }
}

fn put_letter(out: &mut Out, how: How, b: u8) {
    let letter = [plain(b)];
    out.text_as(how, &letter);
}

fn put_sign(out: &mut Out, how: How, is_marked: bool) {
    if how == How::Plain {
        out.text(b"  ");
    }
    if is_marked {
        out.text_as(how, b">");
        return;
    }
    out.byte(b' ');
}

fn put_line(
    out: &mut Out,
    how: How,
    place: usize,
    line: &[u8],
    across: usize,
    mark: usize,
    is_marked: bool,
) {
    put_sign(out, how, is_marked);
    out.byte(b' ');
    out.zeros(place, 6);
    out.byte(b' ');
    put_cells(out, how, line, across, mark, is_marked);
    out.byte(b'|');
    put_letters(out, how, line);
    out.byte(b'|');
}

// Lines are ended for people, and in a page parted.
fn part_lines(out: &mut Out, how: How, before: usize) {
    if how == How::Html && 0 < before {
        out.end_line();
    }
}

fn end_of_line(out: &mut Out, how: How) {
    if how == How::Plain {
        out.end_line();
    }
}

fn put_gap(out: &mut Out, how: How) {
    if how == How::Plain {
        out.text(b"  ");
    }
    out.text(b"  ...");
}

// `across` bytes of row r from its byte k on, as a line; nothing where the row has no such byte.
fn put_piece(out: &mut Out, how: How, file: &[u8], dump: Dump, r: usize, k: usize, across: usize) {
    let n = across.min(row_length(dump, r).saturating_sub(k));
    if n == 0 {
        return;
    }
    let place = row_place(dump, r).saturating_add(k);
    let is_here = dump.is_marked && place <= dump.mark && dump.mark < place.saturating_add(n);
    part_lines(out, how, r.saturating_add(k));
    put_line(
        out,
        how,
        place,
        part(file, place, n),
        across,
        dump.mark.saturating_sub(place),
        is_here,
    );
    end_of_line(out, how);
}

// Row r where it is shown, and dots where those before it are not. Where the last shown one ended.
fn put_row(
    out: &mut Out,
    how: How,
    file: &[u8],
    dump: Dump,
    r: usize,
    across: usize,
    last: usize,
) -> usize {
    if !is_shown(dump, r) {
        return last;
    }
    let place = row_place(dump, r);
    if 0 < r && last != place {
        part_lines(out, how, r);
        put_gap(out, how);
        end_of_line(out, how);
    }
    put_piece(out, how, file, dump, r, 0, across);
    if across < ROW {
        put_piece(out, how, file, dump, r, across, across);
    }
    place.saturating_add(row_length(dump, r))
}

// The dump in lines of `across` bytes, 16 or 8; behind it how many bytes more there are, where that is asked.
pub fn put_dump(out: &mut Out, how: How, file: &[u8], dump: Dump, across: usize, is_counted: bool) {
    let rows = rows_of(dump);
    let mut last = dump.start;
    for r in 0..rows {
        last = put_row(out, how, file, dump, r, across, last);
    }
    let more = dump.start.saturating_add(dump.length).saturating_sub(last);
    if !is_counted || more == 0 {
        return;
    }
    part_lines(out, how, 1);
    put_gap(out, how);
    out.byte(b' ');
    out.count(more, b"byte", b"bytes");
    out.text(b" more");
    end_of_line(out, how);
}
