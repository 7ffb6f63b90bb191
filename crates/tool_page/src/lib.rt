// A style file as one HTML page, complete in itself: no script, and nothing from outside. It is written as it goes.
#![tactic(auto)]

pub mod cards;
pub mod top;

use cards::put_card;
use tool_look::list::List;
use tool_look::totals::totals_of;
use tool_look::{Seen, Verdict};
use tool_out::Out;
use tool_page_css::put_foot;
use tool_page_file::refused::put_refusal;
use tool_page_file::sections::put_file;
use tool_page_map::put_map;
use top::put_top;

fn put_cards(out: &mut Out, file: &[u8], list: &List, seen: Seen) {
    for k in 0..seen.count() {
        put_card(out, file, list.at(k), seen, k);
    }
}

// The page of a file that was looked at, under its name.
pub fn page(out: &mut Out, name: &[u8], file: &[u8], list: &List, seen: Seen) {
    let body = seen.body(file);
    let totals = totals_of(body, list, seen.count());
    put_top(out, name, seen, totals);
    if seen.number != 0 && seen.verdict != Verdict::NoCasm {
        put_refusal(out, file, list, seen);
    }
    out.text(b"<div class=\"two\">");
    if seen.found.is_some() {
        put_map(out, body, list, seen, totals);
    }
    put_file(out, file, seen);
    put_cards(out, file, list, seen);
    put_foot(out);
}
