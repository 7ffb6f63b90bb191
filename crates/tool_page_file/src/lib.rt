// What the page says of the file: its verdict, its refusal, its sections.
#![tactic(auto)]

pub mod refused;
pub mod sections;

use tool_look::totals::{Totals, editions};
use tool_look::{Seen, Verdict};
use tool_out::Out;
use tool_words::names::edition;

pub fn put_verdict(out: &mut Out, verdict: Verdict) {
    out.text(verdict.words());
}

fn put_sound(out: &mut Out, totals: Totals) {
    out.count(totals.sound, b"group", b"groups");
    out.text(b", ");
    out.count(totals.parts, b"part", b"parts");
    out.text(b", ");
    out.count(totals.channels, b"channel", b"channels");
    out.text(b", ");
    out.text(edition(editions(totals)));
}

fn put_damaged(out: &mut Out, entries: usize, totals: Totals) {
    if totals.damaged == 0 && totals.loose == 0 {
        out.text(b"every group is sound by itself, the body as a whole is refused");
        return;
    }
    out.count(entries, b"entry", b"entries");
    out.text(b": ");
    out.number(totals.sound);
    out.text(b" sound, ");
    out.number(totals.damaged);
    out.text(b" damaged, ");
    out.number(totals.loose);
    out.text(b" loose");
}

// What the body holds, or why there is none; nothing of a file that has no body and is not damaged.
pub fn put_summary(out: &mut Out, seen: Seen, totals: Totals) {
    if seen.verdict == Verdict::Sound {
        put_sound(out, totals);
        return;
    }
    if seen.found.is_some() {
        put_damaged(out, seen.count(), totals);
        return;
    }
    if seen.verdict == Verdict::Damaged {
        out.text(b"the sections of the file cannot be followed");
    }
}
