// Ranges of notes, drawn below a keyboard.
#![tactic(auto)]

use tool_out::Out;
use tool_page_keys::put_at;
use tool_page_share::put_share;
use tool_words::names::set;

fn put_bar(out: &mut Out, low: usize, high: usize) {
    out.text(b"<rect class=\"bar\" x=\"");
    put_at(out, low);
    out.text(b"\" y=\"1\" width=\"");
    put_at(out, high.saturating_add(1).saturating_sub(low));
    out.text(b"\" height=\"8\" rx=\"2\"/>");
}

// A low limit above the high one.
fn put_crossed(out: &mut Out, low: usize, high: usize) {
    let end = high.saturating_add(1);
    out.text(b"<line class=\"cross\" x1=\"");
    put_at(out, end);
    out.text(b"\" x2=\"");
    put_at(out, low);
    out.text(b"\" y1=\"5\" y2=\"5\"/><svg x=\"");
    put_at(out, low);
    out.text(
        b"\" overflow=\"visible\"><path class=\"end\" d=\"M0 0h6v2h-4v6h4v2h-6z\"/></svg><svg x=\"",
    );
    put_at(out, end);
    out.text(b"\" overflow=\"visible\"><path class=\"end\" d=\"M0 0h-6v2h4v6h-4v2h6z\"/></svg>");
}

// A range of notes, also crossed.
pub fn put_lane(out: &mut Out, low: u8, high: u8) {
    out.text(
        b"<svg class=\"lane\" aria-hidden=\"true\"><line class=\"base\" x1=\"0\" x2=\"100%\" y1=\"5\" y2=\"5\"/>",
    );
    if low <= high {
        put_bar(out, low as usize, high as usize);
    } else {
        put_crossed(out, low as usize, high as usize);
    }
    out.text(b"</svg>");
}

// The source notes of a set, from `low` up to the one before `end`; named where there is room.
pub fn put_zone(out: &mut Out, which: u8, low: usize, end: usize) {
    if end <= low {
        return;
    }
    out.text(b"<rect x=\"");
    put_at(out, low);
    out.text(b"\" y=\".5\" width=\"");
    put_at(out, end.saturating_sub(low));
    out.text(b"\" height=\"14\"/>");
    if 11 < end.saturating_sub(low) {
        put_zone_name(out, which, low.saturating_add(end));
    }
}

// The name of a set in the middle of its notes, whose place is given in half keys.
fn put_zone_name(out: &mut Out, which: u8, place: usize) {
    out.text(b"<text x=\"");
    put_share(out, place, 256);
    out.text(b"\" y=\"11\">");
    out.text(set(which));
    out.text(b"</text>");
}
