// The body to scale: a map of its entries, and their index.
#![tactic(auto)]

use tool_look::Seen;
use tool_look::list::{Entry, Kind, List};
use tool_look::totals::Totals;
use tool_out::Out;
use tool_page_box::{put_entry, put_link, put_size};
use tool_page_words::{put_kind, put_kind_capital, put_title};

fn put_entries(out: &mut Out, body: &[u8], list: &List, seen: Seen) {
    for k in 0..seen.count() {
        put_entry(out, body, list.at(k), seen, k);
    }
}

// The places at both ends of the body.
fn put_axis(out: &mut Out, from: usize, length: usize) {
    out.text(
        b"<g class=\"axis\" aria-hidden=\"true\"><text x=\"0\" y=\"57\" style=\"text-anchor:start\">",
    );
    out.place(from);
    out.text(b"</text><text x=\"100%\" y=\"57\" style=\"text-anchor:end\">");
    out.place(from.saturating_add(length));
    out.text(b"</text></g></svg>");
}

fn put_swatch(out: &mut Out, kind: Kind) {
    out.text(b"<svg class=\"swatch\" aria-hidden=\"true\"><rect class=\"f-");
    put_kind(out, kind);
    out.text(b"\" width=\"100%\" height=\"100%\"/></svg>");
}

fn put_many(out: &mut Out, kind: Kind, words: &[u8], many: usize) {
    out.text(b"<li>");
    put_swatch(out, kind);
    out.text(words);
    out.number(many);
    out.text(b"</li>");
}

fn put_legend(out: &mut Out, totals: Totals) {
    out.text(b"<ul class=\"legend\" aria-label=\"Legend\">");
    put_many(out, Kind::Sound, b"sound group: ", totals.sound);
    put_many(out, Kind::Damaged, b"damaged entry: ", totals.damaged);
    put_many(out, Kind::Loose, b"loose bytes: ", totals.loose);
    out.text(b"</ul><ol class=\"index\">");
}

// The kind of an entry that is not sound.
fn put_bad_kind(out: &mut Out, kind: Kind) {
    if kind == Kind::Sound {
        return;
    }
    out.text(b"<span class=\"is-");
    put_kind(out, kind);
    out.text(b"\">");
    put_kind_capital(out, kind);
    out.text(b":</span> ");
}

// Entry k in the index.
fn put_line(out: &mut Out, body: &[u8], entry: Entry, seen: Seen, k: usize) {
    let kind = entry.kind(body);
    out.text(b"<li>");
    put_link(out, k);
    out.text(b"><span class=\"no\">");
    out.number(k.saturating_add(1));
    out.text(b"</span>");
    put_swatch(out, kind);
    out.text(b"<span class=\"what\">");
    put_bad_kind(out, kind);
    put_title(out, body, entry);
    out.text(b"</span><span class=\"at\">");
    put_size(out, entry, seen);
    out.text(b"</span></a></li>");
}

fn put_index(out: &mut Out, body: &[u8], list: &List, seen: Seen) {
    for k in 0..seen.count() {
        put_line(out, body, list.at(k), seen, k);
    }
    out.text(b"</ol>");
}

// The card with both.
pub fn put_map(out: &mut Out, body: &[u8], list: &List, seen: Seen, totals: Totals) {
    out.text(
        b"<section class=\"card\" aria-labelledby=\"map\"><h2 id=\"map\">The body to scale</h2><svg class=\"map\" role=\"group\" aria-label=\"Map of the body to scale: ",
    );
    out.count(seen.count(), b"entry", b"entries");
    out.text(b" in ");
    out.count(seen.body_length(), b"byte", b"bytes");
    out.text(b"\">");
    put_entries(out, body, list, seen);
    put_axis(out, seen.body_place(), seen.body_length());
    put_legend(out, totals);
    put_index(out, body, list, seen);
    out.text(b"</section>");
}
