// `casm report --json`: the same facts for programs, one object a file.
#![tactic(auto)]

pub mod channel;
pub mod entry;
pub mod put;
pub mod sets;

use entry::{put_entries, put_refusal};
use put::put_number;
use tool_look::list::List;
use tool_look::totals::{Totals, editions, totals_of};
use tool_look::{Seen, Verdict};
use tool_out::Out;
use tool_out::shown::How;
use tool_parts::{next_section, put_json, put_tag, section_length, sections_end};
use tool_reason::cause_of;
use tool_report::head::dump_of;

// The editions of a file: `[1]`, `[2]`, both or none.
pub fn put_editions(out: &mut Out, which: u8) {
    if which == 1 {
        out.text(b"[1]");
        return;
    }
    if which == 2 {
        out.text(b"[2]");
        return;
    }
    if which == 3 {
        out.text(b"[1,2]");
        return;
    }
    out.text(b"[]");
}

fn put_counts(out: &mut Out, seen: Seen, totals: Totals) {
    if seen.found.is_none() {
        out.text(b",\"counts\":null");
        return;
    }
    out.text(b",\"counts\":{\"entries\":");
    out.number(seen.count());
    put_number(out, b"sound", totals.sound);
    put_number(out, b"damaged", totals.damaged);
    put_number(out, b"loose", totals.loose);
    put_number(out, b"parts", totals.parts);
    put_number(out, b"channels", totals.channels);
    out.byte(b'}');
}

fn put_section(out: &mut Out, file: &[u8], tag: usize) {
    if 0 < tag {
        out.byte(b',');
    }
    out.text(b"{\"tag\":\"");
    put_tag(out, How::Json, file, tag);
    out.byte(b'"');
    put_number(out, b"place", tag);
    put_number(out, b"length", section_length(file, tag));
    out.byte(b'}');
}

fn put_sections(out: &mut Out, file: &[u8], end: usize) {
    let mut tag: usize = 0;
    for _ in 0..file.len() {
        if end <= tag {
            return;
        }
        put_section(out, file, tag);
        tag = next_section(file, tag);
    }
}

fn put_casm(out: &mut Out, seen: Seen) {
    match seen.found {
        None => out.text(b"],\"casm\":null"),
        Some(found) => {
            out.text(b"],\"casm\":{\"place\":");
            out.number(found.tag);
            put_number(out, b"body", seen.body_place());
            put_number(out, b"length", found.length);
            out.byte(b'}');
        }
    }
}

// The refusal of the file or of its body, with the bytes there.
fn put_refused(out: &mut Out, words: &mut Out, file: &[u8], list: &List, seen: Seen) {
    if seen.verdict == Verdict::Sound {
        out.text(b",\"refusal\":null");
        return;
    }
    let cause = cause_of(file, list, seen);
    if seen.found.is_some() {
        put_refusal(out, words, seen.body(file), cause);
    } else {
        put_refusal(out, words, file, cause);
    }
    out.text(b",\"place\":{\"file\":");
    out.number(seen.file_place());
    if seen.found.is_some() {
        put_number(out, b"body", seen.place);
    } else {
        out.text(b",\"body\":null");
    }
    out.text(b"},\"dump\":");
    tool_dump::json::put_dump(out, file, dump_of(file, seen));
    out.byte(b'}');
}

fn put_head(out: &mut Out, name: &[u8], file: &[u8], seen: Seen, totals: Totals) {
    out.text(b"{\"file\":");
    put_json(out, name);
    put_number(out, b"size", file.len());
    out.text(b",\"verdict\":\"");
    out.text(seen.verdict.words());
    out.text(b"\",\"editions\":");
    put_editions(out, editions(totals));
}

// The object of a file that was looked at.
pub fn report(out: &mut Out, name: &[u8], file: &[u8], list: &List, seen: Seen) {
    let mut words = out.memory_for();
    let body = seen.body(file);
    let totals = totals_of(body, list, seen.count());
    put_head(out, name, file, seen, totals);
    put_refused(out, &mut words, file, list, seen);
    put_counts(out, seen, totals);
    out.text(b",\"sections\":[");
    put_sections(out, file, sections_end(file, seen));
    put_casm(out, seen);
    out.text(b",\"entries\":[");
    put_entries(out, &mut words, file, body, list, seen);
    out.text(b"]}\n");
    out.fail_with(&words);
}
