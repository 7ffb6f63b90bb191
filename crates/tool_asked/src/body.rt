// A question that needs a sound body: what is said where there is none, or where the body has no such part.
use casm::read::group_text;
use tool_ends::{Cannot, Host, begin, end, quoted};
use tool_look::list::List;
use tool_look::{Seen, Verdict};
use tool_out::Out;
use tool_out::shown::How;
use tool_parts::put_parts;

// The refusal of a file whose body cannot be asked.
pub fn complain_unsound(
    rt: &impl Host,
    command: &[u8],
    name: &[u8],
    file: &[u8],
    list: &List,
    seen: Seen,
) -> Cannot {
    let cause = tool_reason::cause_of(file, list, seen);
    let mut out = begin(rt, command);
    out.text_as(How::Shown, name);
    if seen.verdict != Verdict::Damaged {
        out.text(b": ");
        out.text(cause.case.words());
        end(rt, &mut out);
        return Cannot;
    }
    out.text(b" is damaged: refusal ");
    out.number(cause.number as usize);
    out.text(b" at ");
    out.hex(seen.file_place());
    out.text(b": ");
    out.text(cause.case.words());
    out.text(b"; see casm report ");
    out.text_as(How::Shown, name);
    end(rt, &mut out);
    Cannot
}

// The parts of all groups of a sound body.
fn put_all_parts(out: &mut Out, body: &[u8], groups: usize) {
    for g in 0..groups {
        if 0 < g {
            out.text(b", ");
        }
        put_parts(out, How::Shown, group_text(body, g));
    }
}

fn put_there(rt: &impl Host, out: &mut Out, name: &[u8], body: &[u8], groups: usize) {
    out.text(b"; the parts of ");
    out.text_as(How::Shown, name);
    out.text(b" are ");
    put_all_parts(out, body, groups);
    end(rt, out);
}

// No part is named, or one that the body does not have.
pub fn complain_no_part(
    rt: &impl Host,
    command: &[u8],
    name: &[u8],
    body: &[u8],
    groups: usize,
) -> Cannot {
    let mut out = begin(rt, command);
    out.text(b"no PART");
    put_there(rt, &mut out, name, body, groups);
    Cannot
}

pub fn complain_part(
    rt: &impl Host,
    command: &[u8],
    sought: &[u8],
    name: &[u8],
    body: &[u8],
    groups: usize,
) -> Cannot {
    let mut out = begin(rt, command);
    out.text(b"no part ");
    quoted(&mut out, sought);
    put_there(rt, &mut out, name, body, groups);
    Cannot
}
