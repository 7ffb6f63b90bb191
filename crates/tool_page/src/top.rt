// The head of the page: what is drawn in many places of it, the name of the file, its verdict.
use tool_look::totals::Totals;
use tool_look::{Seen, Verdict};
use tool_out::Out;
use tool_out::shown::How;
use tool_page_css::{put_css, put_patterns, put_tick, put_triangle};
use tool_page_file::{put_summary, put_verdict};
use tool_page_keys::{put_darks, put_lines};
use tool_page_strips::put_cells;

// A mask with the bits of all chord types.
const EVERY: usize = 0x3_FFFF_FFFF;

// The cells of the chord types, and the keys.
fn put_shapes(out: &mut Out) {
    put_patterns(out);
    put_cells(out, EVERY);
    out.text(
        b"\"/></g><g id=\"keys\"><path class=\"k-light\" d=\"M0 0h128v20h-128z\"/><path class=\"k-line\" d=\"",
    );
    put_lines(out);
    out.text(b"\"/><path class=\"k-dark\" d=\"");
    put_darks(out);
    out.text(b"\"/><path class=\"k-line\" d=\"M0 0h128v20h-128z\"/></g></defs></svg>");
}

// The sign of a verdict and its word; neither colour nor sign where it is not about a body's entries.
fn put_badge(out: &mut Out, seen: Seen) {
    if seen.verdict == Verdict::Sound {
        out.text(b"sound\">");
        put_tick(out);
        out.text(b"Sound");
        return;
    }
    if seen.verdict == Verdict::Damaged {
        out.text(b"damaged\">");
        put_triangle(out);
        if seen.found.is_some() {
            out.text(b"Damaged");
            return;
        }
        out.text(b"damaged");
        return;
    }
    out.text(b"none\">");
    put_verdict(out, seen.verdict);
}

fn put_head(out: &mut Out, name: &[u8], verdict: Verdict) {
    out.text(
        b"<!DOCTYPE html>\n<html lang=\"en\"><head><meta charset=\"utf-8\"/><meta name=\"viewport\" content=\"width=device-width, initial-scale=1\"/><title>",
    );
    out.text_as(How::Html, name);
    out.text(b": ");
    put_verdict(out, verdict);
    out.text(b"</title><style>");
    put_css(out);
    out.text(b"</style></head>\n<body>");
    put_shapes(out);
}

pub fn put_top(out: &mut Out, name: &[u8], seen: Seen, totals: Totals) {
    put_head(out, name, seen.verdict);
    out.text(b"<header class=\"top\"><h1>");
    out.text_as(How::Html, name);
    out.text(b"</h1><div class=\"verdict\"><span class=\"badge is-");
    put_badge(out, seen);
    out.text(b"</span><span>");
    put_summary(out, seen, totals);
    out.text(b"</span></div></header>\n<main>");
}
