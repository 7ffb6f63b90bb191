// A line for a file: what it is, or why it was not read.
use tool_asked::Form;
use tool_files::Unread;
use tool_json::put_editions;
use tool_look::list::List;
use tool_look::totals::{Totals, editions, totals_of};
use tool_look::{Seen, Verdict};
use tool_out::Out;
use tool_out::shown::How;
use tool_parts::put_json;
use tool_words::names;

// The kinds of files in words: the verdicts, and one that was not read.
pub fn kind_words(kind: Option<Verdict>) -> &'static [u8] {
    match kind {
        Some(verdict) => verdict.words(),
        None => b"not read",
    }
}

fn put_sound(out: &mut Out, totals: Totals) {
    out.text(b"sound, ");
    out.count(totals.sound, b"group", b"groups");
    out.text(b", ");
    out.text(names::edition(editions(totals)));
}

fn put_damaged(out: &mut Out, seen: Seen, totals: Totals) {
    out.text(b"damaged: ");
    if seen.found.is_some() {
        out.number(totals.damaged.saturating_add(totals.loose));
        out.text(b" of ");
        out.count(seen.count(), b"entry", b"entries");
    } else {
        out.text(b"sections");
    }
    out.text(b", refusal ");
    out.number(seen.number as usize);
    out.text(b" at ");
    out.hex(seen.file_place());
}

pub fn put_line(out: &mut Out, name: &[u8], file: &[u8], list: &List, seen: Seen) {
    let body = seen.body(file);
    let totals = totals_of(body, list, seen.count());
    out.text_as(How::Shown, name);
    out.text(b": ");
    if seen.verdict == Verdict::Sound {
        put_sound(out, totals);
        out.end_line();
        return;
    }
    if seen.verdict == Verdict::Damaged {
        put_damaged(out, seen, totals);
        out.end_line();
        return;
    }
    out.text(seen.verdict.words());
    out.end_line();
}

fn put_begin(out: &mut Out, name: &[u8], verdict: &[u8]) {
    out.text(b"{\"file\":");
    put_json(out, name);
    out.text(b",\"verdict\":\"");
    out.text(verdict);
    out.text(b"\",\"groups\":");
}

pub fn put_json_line(out: &mut Out, name: &[u8], file: &[u8], list: &List, seen: Seen) {
    let body = seen.body(file);
    let totals = totals_of(body, list, seen.count());
    put_begin(out, name, seen.verdict.words());
    out.number(totals.sound);
    out.text(b",\"editions\":");
    put_editions(out, editions(totals));
    if seen.verdict == Verdict::Sound {
        out.text(b",\"refusal\":null}\n");
        return;
    }
    out.text(b",\"refusal\":{\"number\":");
    out.number(seen.number as usize);
    out.text(b",\"place\":");
    out.number(seen.file_place());
    out.text(b"}}\n");
}

// A file that was not read.
pub fn put_unread(out: &mut Out, name: &[u8], form: Form, why: Unread) {
    let kind = kind_words(None);
    if form == Form::Json {
        put_begin(out, name, kind);
        out.text(b"0,\"editions\":[],\"refusal\":null}\n");
        return;
    }
    out.text_as(How::Shown, name);
    out.text(b": ");
    out.text(kind);
    out.text(b": ");
    out.text(why.words());
    out.end_line();
}
