// `casm list FILE`: document 01's list, of a named file of up to 1 MiB.
#![tactic(auto)]

use casm::list::list_salvage;
use casm::read::find_casm;
use tool_ends::Status;
use tool_look::body_of;
use tool_look::list::{Entry, List};
use tool_out::Out;

fn put_spaced(out: &mut Out, n: usize) {
    out.byte(b' ');
    out.number(n);
}

fn put_entry(out: &mut Out, entry: Entry) {
    out.number(entry.place);
    put_spaced(out, entry.length);
    put_spaced(out, entry.number);
    out.end_line();
}

// The lines of the entries; whether each of them is a sound group.
fn is_all_sound(out: &mut Out, list: &List, count: usize) -> bool {
    let mut is_all = true;
    for k in 0..count {
        let entry = list.at(k);
        put_entry(out, entry);
        is_all = is_all && entry.is_sound();
    }
    is_all
}

fn put_casm(out: &mut Out, tag: usize, length: usize) {
    out.text(b"casm");
    put_spaced(out, tag);
    put_spaced(out, length);
    out.end_line();
}

pub fn list(out: &mut Out, file: &[u8], list: &mut List) -> Status {
    let found = find_casm(file);
    if found.number != 0 {
        out.text(b"refused");
        put_spaced(out, found.number as usize);
        put_spaced(out, found.place);
        out.end_line();
        return Status::No;
    }
    let listed = list_salvage(body_of(file, found.tag, found.length), list.lent());
    put_casm(out, found.tag, found.length);
    let is_all = is_all_sound(out, list, listed.count);
    out.text(b"end");
    put_spaced(out, listed.count);
    out.end_line();
    if is_all {
        return Status::Done;
    }
    Status::No
}
