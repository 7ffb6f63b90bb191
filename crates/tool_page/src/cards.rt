// A card for each entry: a sound group with its channels, or what is wrong and the bytes.
use tool_dump::Dump;
use tool_look::list::{Entry, Kind};
use tool_look::{Seen, Verdict};
use tool_out::Out;
use tool_page_box::put_entry_word;
use tool_page_group::put_group;
use tool_page_words::bytes::put_bytes;
use tool_page_words::{put_id, put_kind, put_more, put_places, put_reason_capital, put_where};
use tool_reason::{Cause, cause_of_entry};

// `Entry 2 of 5`.
fn put_which(out: &mut Out, seen: Seen, k: usize) {
    put_entry_word(out, seen);
    out.number(k.saturating_add(1));
    out.text(b" of ");
    out.number(seen.count());
}

fn put_ids(out: &mut Out, k: usize) {
    put_id(out, k);
    out.text(b"\" aria-labelledby=\"");
    put_id(out, k);
}

fn put_sound(out: &mut Out, body: &[u8], entry: Entry, seen: Seen, k: usize) {
    out.text(b"<article class=\"card group\" id=\"");
    put_ids(out, k);
    out.text(b"t\"><header><p class=\"eyebrow\"><span>");
    put_which(out, seen, k);
    out.text(b"</span>");
    if seen.verdict != Verdict::Sound {
        out.text(b"<span class=\"is-sound\">sound</span>");
    }
    out.text(b"</p>");
    put_group(out, body, entry, seen.body_place(), k);
}

// Where a damaged entry is refused.
fn put_refused_at(out: &mut Out, from: usize, cause: Cause) {
    out.text(b"<p>Refused at ");
    put_places(out, from, cause.place);
    out.text(b", ");
    out.place(cause.place.saturating_sub(cause.start));
    out.text(b" in the entry.</p>");
}

// What an entry is that is no group, and why.
fn put_wound(out: &mut Out, seen: Seen, k: usize, kind: Kind, cause: Cause) {
    out.text(b"<article class=\"card wound\" id=\"");
    put_ids(out, k);
    out.text(b"t\"><svg class=\"band\" aria-hidden=\"true\"><rect class=\"f-");
    put_kind(out, kind);
    out.text(b"\" width=\"100%\" height=\"100%\"/></svg><p class=\"eyebrow\"><span>");
    put_which(out, seen, k);
    out.text(b"</span><span class=\"is-");
    put_kind(out, kind);
    out.text(b"\">");
    put_kind(out, kind);
    out.text(b", refusal ");
    out.number(cause.number as usize);
    out.text(b"</span></p><h2 id=\"");
    put_id(out, k);
    out.text(b"t\">");
    put_reason_capital(out, cause.case);
    out.text(b"</h2>");
}

// The bytes of an entry, that of its refusal marked where it is damaged.
fn dump_of(entry: Entry, from: usize, at: usize, kind: Kind) -> Dump {
    Dump {
        start: from.saturating_add(entry.place),
        length: entry.length,
        mark: from.saturating_add(at),
        is_marked: kind == Kind::Damaged,
    }
}

// An entry that is no group.
fn put_bad(out: &mut Out, file: &[u8], entry: Entry, seen: Seen, k: usize) {
    let body = seen.body(file);
    let from = seen.body_place();
    let kind = entry.kind(body);
    let cause = cause_of_entry(body, entry);
    put_wound(out, seen, k, kind, cause);
    put_more(out, body, cause);
    if kind == Kind::Damaged {
        put_refused_at(out, from, cause);
    }
    out.text(b"<p class=\"small\">Entry: ");
    put_where(out, from, entry.place, entry.length);
    out.text(b"</p>");
    put_bytes(out, file, dump_of(entry, from, cause.place, kind), true);
    out.text(b"</article>\n");
}

// The card of entry k.
pub fn put_card(out: &mut Out, file: &[u8], entry: Entry, seen: Seen, k: usize) {
    let body = seen.body(file);
    if entry.kind(body) == Kind::Sound {
        put_sound(out, body, entry, seen, k);
        return;
    }
    put_bad(out, file, entry, seen, k);
}
