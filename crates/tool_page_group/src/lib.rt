// A sound group: its parts, and a row for each channel.
#![tactic(auto)]

use casm::read::group_text;
use tool_look::list::Entry;
use tool_look::totals::edition_of;
use tool_out::Out;
use tool_out::shown::How;
use tool_out::words::trimmed;
use tool_page_css::put_padlock;
use tool_page_first::put_first;
use tool_page_second::put_second;
use tool_page_sets::{SETTINGS, head};
use tool_page_strips::{put_chord_strip, put_root_strip, put_types};
use tool_page_words::parts::put_spans;
use tool_page_words::{put_id, put_where};
use tool_rows::row::Row;
use tool_rows::{Rows, read_rows};
use tool_words::names::edition;
use tool_words::{put_destination_name, put_voice};

// What names a row of group g in the page.
fn put_row_id(out: &mut Out, g: usize, row: &Row) {
    put_id(out, g);
    out.byte(b'c');
    out.number(row.channel());
}

fn put_name(out: &mut Out, voice: &[u8]) {
    if trimmed(voice).is_empty() {
        out.text(b"<p class=\"v none\">no name</p><p>");
        return;
    }
    out.text(b"<p class=\"v\">");
    put_voice(out, How::Html, voice);
    out.text(b"</p><p>");
}

fn put_lock(out: &mut Out, lock: u8) {
    if lock != 1 {
        return;
    }
    out.text(b"<p class=\"tag\">");
    put_padlock(out);
    out.text(b"locked</p>");
}

// Who plays: channel, voice, destination, lock.
fn put_who(out: &mut Out, g: usize, row: &Row) {
    out.text(b"<li class=\"ch\" aria-labelledby=\"");
    put_row_id(out, g, row);
    out.text(b"\"><div class=\"who\"><h3 class=\"n\" id=\"");
    put_row_id(out, g, row);
    out.text(b"\"><small>ch</small> ");
    out.number(row.channel());
    out.text(b"</h3>");
    put_name(out, row.voice());
    let destination = row.byte(9);
    out.number((destination as usize).saturating_add(1));
    out.byte(b' ');
    put_destination_name(out, destination);
    out.text(b"</p>");
    put_lock(out, row.byte(10));
    out.text(b"</div>");
}

fn put_channel(out: &mut Out, g: usize, row: &Row) {
    put_who(out, g, row);
    out.text(b"<div class=\"when\">");
    put_chord_strip(out, row.chord_mask());
    put_root_strip(out, row.root_mask());
    out.text(b"</div><div class=\"placed\">");
    if row.is_second() {
        put_second(out, row);
    } else {
        put_first(out, row);
    }
    out.text(b"</div></li>");
}

// The heads of the settings of a first edition.
fn put_heads(out: &mut Out) {
    out.text(b"<div class=\"k3 six\">");
    for n in 0..SETTINGS {
        out.text(b"<span>");
        out.text(head(n));
        out.text(b"</span>");
    }
    out.text(b"</div>");
}

// What stands above the rows.
fn put_key(out: &mut Out, edition: u8) {
    out.text(
        b"<div class=\"keyrow\" aria-hidden=\"true\"><p class=\"k1\">source channel, voice, destination</p><div>",
    );
    put_types(out);
    out.text(b"</div>");
    if edition == 1 {
        put_heads(out);
    } else {
        out.text(
            b"<p class=\"k3\">source notes, the three sets and their note ranges (C3 is 60)</p>",
        );
    }
    out.text(b"</div><ol>");
}

fn put_channels(out: &mut Out, g: usize, rows: &Rows) {
    for row in rows.held() {
        put_channel(out, g, row);
    }
    out.text(b"</ol>");
}

// The group that is entry g, behind the words that say which it is.
pub fn put_group(out: &mut Out, body: &[u8], entry: Entry, from: usize, g: usize) {
    let group = entry.bytes(body);
    let rows = read_rows(group, 0);
    let channels = rows.count();
    let which = edition_of(group);
    out.text(b"<h2 class=\"parts\" id=\"");
    put_id(out, g);
    out.text(b"t\">");
    put_spans(out, group_text(group, 0));
    out.text(b"</h2><p class=\"small\">");
    out.text(edition(which));
    out.text(b", ");
    out.count(channels, b"channel", b"channels");
    out.text(b"; ");
    put_where(out, from, entry.place, entry.length);
    out.text(b"</p></header>");
    if 0 < channels {
        put_key(out, which);
        put_channels(out, g, &rows);
    }
    out.text(b"</article>\n");
}
