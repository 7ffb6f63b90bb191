// The lists of a report: the groups or the entries of the body, and the sections of the file.
use casm::read::group_text;
use tool_look::list::{Entry, List};
use tool_look::totals::channels_of;
use tool_look::{Seen, Verdict};
use tool_out::Out;
use tool_out::shown::How;
use tool_parts::{next_section, put_parts, put_tag, section_length, sections_end};
use tool_reason::cause_of_entry;
use tool_table::row::put_row;
use tool_table::{COLUMNS, limit_all, measure, next_cell};

const GROUP_RIGHTS: [bool; COLUMNS] = [true, true, true, true, true, false, false, false];

const ENTRY_RIGHTS: [bool; COLUMNS] = [true, true, true, true, false, false, false, false];

const SECTION_RIGHTS: [bool; COLUMNS] = [false, true, true, true, false, false, false, false];

fn listing_head(row: &mut Out, seen: Seen) {
    row.clear();
    if seen.verdict == Verdict::Sound {
        row.text(b"no.\0place\0hex\0length\0channels\0parts");
        return;
    }
    row.text(b"no.\0place\0hex\0length\0kind\0parts, or refusal");
}

// A place and a length, in two cells and one.
fn put_bounds(row: &mut Out, at: usize, length: usize) {
    row.number(at);
    next_cell(row);
    row.hex(at);
    next_cell(row);
    row.number(length);
    next_cell(row);
}

// The kind of an entry that is no sound group, and why it is none.
fn put_refused(row: &mut Out, body: &[u8], entry: Entry) {
    if entry.is_loose(body) {
        row.text(b"loose");
    } else {
        row.text(b"damaged");
    }
    next_cell(row);
    let cause = cause_of_entry(body, entry);
    row.number(cause.number as usize);
    row.text(b": ");
    row.text(cause.case.words());
}

fn listing_row(row: &mut Out, body: &[u8], entry: Entry, seen: Seen, k: usize) {
    row.clear();
    row.number(k.saturating_add(1));
    next_cell(row);
    put_bounds(
        row,
        seen.body_place().saturating_add(entry.place),
        entry.length,
    );
    if !entry.is_sound() {
        put_refused(row, body, entry);
        return;
    }
    let group = entry.bytes(body);
    if seen.verdict == Verdict::Sound {
        row.number(channels_of(group));
    } else {
        row.text(b"sound");
    }
    next_cell(row);
    put_parts(row, How::Shown, group_text(group, 0));
}

fn measure_listing(
    widths: &mut [usize; COLUMNS],
    row: &mut Out,
    body: &[u8],
    list: &List,
    seen: Seen,
) {
    listing_head(row, seen);
    measure(widths, row);
    for k in 0..seen.count() {
        listing_row(row, body, list.at(k), seen, k);
        measure(widths, row);
    }
}

fn put_rows(
    out: &mut Out,
    row: &mut Out,
    widths: &[usize; COLUMNS],
    body: &[u8],
    list: &List,
    seen: Seen,
) {
    let mut rights = ENTRY_RIGHTS;
    if seen.verdict == Verdict::Sound {
        rights = GROUP_RIGHTS;
    }
    listing_head(row, seen);
    put_row(out, row, widths, 2, rights);
    for k in 0..seen.count() {
        listing_row(row, body, list.at(k), seen, k);
        put_row(out, row, widths, 2, rights);
    }
}

// The groups of a sound body, or the entries of any other.
pub fn put_listing(out: &mut Out, row: &mut Out, file: &[u8], list: &List, seen: Seen) {
    let body = seen.body(file);
    let mut widths = [0usize; COLUMNS];
    if seen.verdict == Verdict::Sound {
        out.text(b"\nGroups\n");
    } else {
        out.text(b"\nEntries of the body, in file order\n");
    }
    measure_listing(&mut widths, row, body, list, seen);
    limit_all(&mut widths, [4, 7, 7, 6, 8, 24, 0, 0], 2, 5);
    put_rows(out, row, &widths, body, list, seen);
}

fn sections_head(row: &mut Out) {
    row.clear();
    row.text(b"section\0place\0hex\0length\0");
}

fn section_row(row: &mut Out, file: &[u8], seen: Seen, tag: usize) {
    row.clear();
    put_tag(row, How::Shown, file, tag);
    next_cell(row);
    put_bounds(row, tag, section_length(file, tag));
    if seen.is_at(tag) {
        row.text(b"body at ");
        row.place(tag.saturating_add(8));
    }
}

fn measure_sections(
    widths: &mut [usize; COLUMNS],
    row: &mut Out,
    file: &[u8],
    seen: Seen,
    end: usize,
) {
    sections_head(row);
    measure(widths, row);
    let mut tag: usize = 0;
    for _ in 0..file.len() {
        if end <= tag {
            return;
        }
        section_row(row, file, seen, tag);
        measure(widths, row);
        tag = next_section(file, tag);
    }
}

fn put_section_rows(
    out: &mut Out,
    row: &mut Out,
    widths: &[usize; COLUMNS],
    file: &[u8],
    seen: Seen,
    end: usize,
) {
    sections_head(row);
    put_row(out, row, widths, 2, SECTION_RIGHTS);
    let mut tag: usize = 0;
    for _ in 0..file.len() {
        if end <= tag {
            return;
        }
        section_row(row, file, seen, tag);
        put_row(out, row, widths, 2, SECTION_RIGHTS);
        tag = next_section(file, tag);
    }
}

// The size of the file, and its sections as far as they can be followed.
pub fn put_sections(out: &mut Out, row: &mut Out, file: &[u8], seen: Seen) {
    out.text(b"\nFile: ");
    out.count(file.len(), b"byte", b"bytes");
    out.text(b"\n");
    let end = sections_end(file, seen);
    if end == 0 {
        return;
    }
    let mut widths = [0usize; COLUMNS];
    measure_sections(&mut widths, row, file, seen, end);
    limit_all(&mut widths, [16, 7, 7, 7, 18, 0, 0, 0], 2, 4);
    put_section_rows(out, row, &widths, file, seen, end);
}
