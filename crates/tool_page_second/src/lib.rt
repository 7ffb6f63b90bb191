// How notes are placed by a channel of the second edition: three sets, or one for all where they are the same.
#![tactic(auto)]

use tool_out::Out;
use tool_page_first::facts::{put_middle_notes, put_source_chord, put_unexplained};
use tool_page_keys::{put_keyboard, put_octaves};
use tool_page_lanes::{put_lane, put_zone};
use tool_page_sets::{notes_end, notes_from, put_limits, put_source_notes};
use tool_page_table::{put_set_name, put_sets};
use tool_rows::row::Row;

// How many sets are shown.
fn shown_sets(row: &Row) -> usize {
    if row.is_one_set() {
        return 1;
    }
    3
}

fn put_zones(out: &mut Out, row: &Row) {
    for which in 0..3usize {
        let from = notes_from(row, which);
        let end = notes_end(row, which);
        put_zone(out, (which % 256) as u8, from, end);
    }
}

fn put_all_source_notes(out: &mut Out, row: &Row) {
    for which in 0..3usize {
        if 0 < which {
            out.text(b"; ");
        }
        put_source_notes(out, row, which);
    }
}

fn put_range(out: &mut Out, row: &Row, which: usize, shown: usize) {
    if 0 < which {
        out.text(b"; ");
    }
    put_set_name(out, which, shown);
    if shown == 1 {
        out.text(b" sets");
    }
    out.byte(b' ');
    put_limits(out, row, which);
}

fn put_ranges(out: &mut Out, row: &Row, shown: usize) {
    for which in 0..shown {
        put_range(out, row, which, shown);
    }
}

fn put_lane_of(out: &mut Out, row: &Row, which: usize, shown: usize) {
    let at = row.set_place(which);
    out.text(b"<span>");
    put_set_name(out, which, shown);
    out.text(b"</span>");
    put_lane(
        out,
        row.byte(at.saturating_add(3)),
        row.byte(at.saturating_add(4)),
    );
}

fn put_lanes(out: &mut Out, row: &Row, shown: usize) {
    for which in 0..shown {
        put_lane_of(out, row, which, shown);
    }
}

// The keys with the source notes of each set and its range.
fn put_keys(out: &mut Out, row: &Row, shown: usize) {
    out.text(b"<div class=\"keys\" role=\"img\" aria-label=\"Source notes: ");
    put_all_source_notes(out, row);
    out.text(b". Note ranges: ");
    put_ranges(out, row, shown);
    out.text(b"\"><span></span>");
    put_keyboard(out);
    out.text(b"<span>source</span><svg class=\"zone\" aria-hidden=\"true\">");
    put_zones(out, row);
    out.text(b"</svg>");
    put_lanes(out, row, shown);
    out.text(b"<span></span>");
    put_octaves(out);
    out.text(b"</div>");
}

pub fn put_second(out: &mut Out, row: &Row) {
    let shown = shown_sets(row);
    put_keys(out, row, shown);
    put_sets(out, row, shown);
    out.text(b"<dl class=\"facts\">");
    put_source_chord(out, row);
    put_middle_notes(out, row);
    put_unexplained(out, row);
    out.text(b"</dl>");
}
