// The refusal of a file or of its body.
use tool_dump::Dump;
use tool_look::Seen;
use tool_look::list::List;
use tool_out::Out;
use tool_page_words::bytes::put_bytes;
use tool_page_words::{put_id, put_more, put_places, put_reason_capital};
use tool_reason::{Cause, cause_of, cause_of_entry};

// The first entry that is refused at the place where its body is.
fn entry_refused_at(body: &[u8], list: &List, entries: usize, at: usize) -> Option<usize> {
    for k in 0..entries {
        let entry = list.at(k);
        if !entry.is_sound() && cause_of_entry(body, entry).place == at {
            return Some(k);
        }
    }
    None
}

// What else there is to say, out of the bytes that the cause speaks of.
fn put_detail_of(out: &mut Out, file: &[u8], seen: Seen, cause: Cause) {
    if seen.found.is_none() {
        put_more(out, file, cause);
        return;
    }
    put_more(out, seen.body(file), cause);
}

fn put_place_of(out: &mut Out, seen: Seen) {
    if seen.found.is_some() {
        put_places(out, seen.body_place(), seen.place);
        return;
    }
    out.place(seen.place);
    out.text(b" in the file");
}

// Two rows from the refused byte on, of what it is refused in.
fn dump_of(file: &[u8], seen: Seen) -> Dump {
    let at = seen.file_place();
    let mut end = file.len();
    if seen.found.is_some() {
        end = seen.body_place().saturating_add(seen.body_length());
    }
    Dump {
        start: at,
        length: end.saturating_sub(at).min(32),
        mark: at,
        is_marked: true,
    }
}

// The refused bytes, or where they are shown.
fn put_bytes_of(out: &mut Out, file: &[u8], list: &List, seen: Seen) {
    let body = seen.body(file);
    match entry_refused_at(body, list, seen.count(), seen.place) {
        None => put_bytes(out, file, dump_of(file, seen), false),
        Some(k) => {
            out.text(b"<p><a href=\"#");
            put_id(out, k);
            out.text(b"\">Its bytes are shown with entry ");
            out.number(k.saturating_add(1));
            out.text(b".</a></p>");
        }
    }
}

pub fn put_refusal(out: &mut Out, file: &[u8], list: &List, seen: Seen) {
    let cause = cause_of(file, list, seen);
    out.text(
        b"<section class=\"card wound\" aria-labelledby=\"ref\"><svg class=\"band\" aria-hidden=\"true\"><rect class=\"f-damaged\" width=\"100%\" height=\"100%\"/></svg><p class=\"eyebrow\">Refusal ",
    );
    out.number(seen.number as usize);
    out.text(b"</p><h2 id=\"ref\">");
    put_reason_capital(out, cause.case);
    out.text(b"</h2>");
    put_detail_of(out, file, seen, cause);
    out.text(b"<p>Refused at ");
    put_place_of(out, seen);
    out.text(b".</p>");
    put_bytes_of(out, file, list, seen);
    out.text(b"</section>\n");
}
