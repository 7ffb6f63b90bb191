// `casm report`: the file as a person reads it. The verdict first, then the refusal with its bytes, the entries, the sections, and each entry in full.
#![tactic(auto)]

pub mod head;
pub mod listing;

use head::{put_head, put_refused};
use listing::{put_listing, put_sections};
use tool_entries::put_entry;
use tool_look::Seen;
use tool_look::list::List;
use tool_out::Out;

fn put_entries(out: &mut Out, words: &mut Out, file: &[u8], list: &List, seen: Seen) {
    let body = seen.body(file);
    for k in 0..seen.count() {
        put_entry(out, words, file, body, list.at(k), seen, k);
    }
}

// The report of a file that was looked at.
pub fn report(out: &mut Out, name: &[u8], file: &[u8], list: &List, seen: Seen) {
    let mut words = out.memory_for();
    put_head(out, name, file, list, seen);
    put_refused(out, &mut words, file, list, seen);
    if seen.found.is_some() {
        put_listing(out, &mut words, file, list, seen);
    }
    put_sections(out, &mut words, file, seen);
    put_entries(out, &mut words, file, list, seen);
    out.fail_with(&words);
}
