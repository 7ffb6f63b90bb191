// The first screen of a report: what the file is, and the refusal with its place and the bytes there.
use tool_dump::{Dump, put_dump};
use tool_entries::put_refusal;
use tool_look::list::List;
use tool_look::totals::{Totals, editions, totals_of};
use tool_look::{Seen, Verdict};
use tool_out::Out;
use tool_out::shown::How;
use tool_reason::cause_of;
use tool_table::cut::put_wrapped;
use tool_words::names;

fn put_sound(out: &mut Out, totals: Totals) {
    out.count(totals.sound, b"group", b"groups");
    out.text(b", ");
    out.count(totals.parts, b"part", b"parts");
    out.text(b", ");
    out.count(totals.channels, b"channel", b"channels");
    out.text(b", ");
    out.text(names::edition(editions(totals)));
}

fn put_damaged(out: &mut Out, seen: Seen, totals: Totals) {
    if totals.damaged.saturating_add(totals.loose) == 0 {
        out.text(b"every group is sound by itself, the body as a whole is refused");
        return;
    }
    out.count(seen.count(), b"entry", b"entries");
    out.text(b": ");
    out.number(totals.sound);
    out.text(b" sound, ");
    out.number(totals.damaged);
    out.text(b" damaged, ");
    out.number(totals.loose);
    out.text(b" loose");
}

// What a file is, in a line; nothing of a file without CASM, and of one that is no style file.
pub fn put_summary(out: &mut Out, file: &[u8], list: &List, seen: Seen) {
    if seen.verdict == Verdict::Sound {
        let body = seen.body(file);
        put_sound(out, totals_of(body, list, seen.count()));
        return;
    }
    if seen.found.is_some() {
        let body = seen.body(file);
        put_damaged(out, seen, totals_of(body, list, seen.count()));
        return;
    }
    if seen.verdict == Verdict::Damaged {
        out.text(b"the sections of the file cannot be followed");
    }
}

// The verdict as the first line has it.
fn put_verdict(out: &mut Out, verdict: Verdict) {
    if verdict == Verdict::Sound {
        out.text(b"SOUND");
        return;
    }
    if verdict == Verdict::Damaged {
        out.text(b"DAMAGED");
        return;
    }
    out.text(verdict.words());
}

pub fn put_head(out: &mut Out, name: &[u8], file: &[u8], list: &List, seen: Seen) {
    out.text_as(How::Shown, name);
    out.text(b": ");
    put_verdict(out, seen.verdict);
    out.end_line();
    if seen.verdict == Verdict::Sound || seen.verdict == Verdict::Damaged {
        out.text(b"  ");
        put_summary(out, file, list, seen);
        out.end_line();
    }
}

// Its place in the file, and in the body where there is one, and 32 bytes from there on.
fn put_there(out: &mut Out, words: &mut Out, file: &[u8], seen: Seen) {
    let at = seen.file_place();
    words.clear();
    words.text(b"at ");
    words.place(at);
    words.text(b" in the file");
    if seen.found.is_some() {
        words.text(b", ");
        words.place(seen.place);
        words.text(b" in the body");
    }
    out.fill(b' ', 2);
    put_wrapped(out, words, 2, false);
    put_dump(out, How::Plain, file, dump_of(file, seen), 16, false);
}

// The bytes that are shown with the refusal of a file or a body: up to 32 of them, the first one marked.
pub fn dump_of(file: &[u8], seen: Seen) -> Dump {
    let at = seen.file_place();
    let mut end = file.len();
    if seen.found.is_some() {
        end = seen.body_place().saturating_add(seen.body_length());
    }
    Dump {
        start: at,
        length: end.saturating_sub(at).min(32),
        mark: at,
        is_marked: true,
    }
}

// The refusal, where there is one; that there is no CASM is said already.
pub fn put_refused(out: &mut Out, words: &mut Out, file: &[u8], list: &List, seen: Seen) {
    if seen.verdict == Verdict::Sound || seen.verdict == Verdict::NoCasm {
        return;
    }
    out.end_line();
    let cause = cause_of(file, list, seen);
    if seen.found.is_some() {
        put_refusal(out, words, seen.body(file), cause, 0);
    } else {
        put_refusal(out, words, file, cause, 0);
    }
    put_there(out, words, file, seen);
}
