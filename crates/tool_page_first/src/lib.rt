// How notes are placed by a channel of the first edition: one set, and the table of its Cntt.
#![tactic(auto)]

pub mod facts;

use facts::{begin_fact, end_fact, put_source_chord};
use tool_out::Out;
use tool_page_keys::{put_keyboard, put_octaves};
use tool_page_lanes::put_lane;
use tool_page_sets::{RULE, SETTINGS, head, put_limits, put_setting};
use tool_rows::row::Row;
use tool_words::put_table;

fn put_settings(out: &mut Out, row: &Row) {
    for n in RULE..SETTINGS {
        begin_fact(out, head(n));
        put_setting(out, row, 0, n);
        end_fact(out);
    }
}

fn put_second_table(out: &mut Out, row: &Row) {
    if let Some(table) = row.second {
        out.text(b"<div class=\"second\"><dt>second table</dt> <dd>");
        put_table(out, 0, table);
        end_fact(out);
    }
}

pub fn put_first(out: &mut Out, row: &Row) {
    out.text(b"<div class=\"keys solo\" role=\"img\" aria-label=\"Note range: ");
    put_limits(out, row, 0);
    out.text(b"\">");
    put_keyboard(out);
    put_lane(out, row.byte(23), row.byte(24));
    put_octaves(out);
    out.text(b"</div><dl class=\"facts six\">");
    put_source_chord(out, row);
    put_settings(out, row);
    put_second_table(out, row);
    out.text(b"</dl>");
}
