// `casm verify`: whether two files differ in one channel only.
#![tactic(auto)]

pub mod site;

use casm::checking::check_files;
use layout::answer::{Checked, Which};
use layout::record::SourceChannel;
use site::put_site;
use tool_asked::read;
use tool_bytes::byte_at;
use tool_ends::{Argument, Cannot, Host, Status, begin, complain, end, quoted};
use tool_files::{FILE, contents};
use tool_out::Out;
use tool_out::shown::How;
use tool_sought::{complain_refused, seek};

// The channel and the part.
fn put_channel(out: &mut Out, channel: u8, name: &[u8]) {
    out.text(b"ch ");
    out.number((channel as usize).saturating_add(1));
    out.text(b" of ");
    out.text_as(How::Shown, name);
}

fn put_yes(out: &mut Out, is_same: bool, channel: u8, name: &[u8]) -> Status {
    if is_same {
        out.text(b"yes: the files are the same\n");
        return Status::Done;
    }
    out.text(b"yes: only ");
    put_channel(out, channel, name);
    out.text(b" differs\n");
    Status::Done
}

// That a file ends at a place, and how much the other one has behind it.
fn put_ended(out: &mut Out, path: &[u8], longer: &[u8], at: usize) {
    out.text(b"  ");
    out.text_as(How::Shown, path);
    out.text(b" ends at ");
    out.place(at);
    out.text(b", and the other file has ");
    out.count(longer.len().saturating_sub(at), b"byte", b"bytes");
    out.text(b" more");
    out.end_line();
}

fn put_byte(out: &mut Out, value: u8) {
    out.upper_pair(value);
    out.text(b"H");
}

// The first byte that differs, and what it is of.
fn put_first(out: &mut Out, before: &[u8], after: &[u8], at: usize) {
    out.text(b"  first at ");
    out.place(at);
    out.text(b": ");
    put_byte(out, byte_at(before, at));
    out.text(b" -> ");
    put_byte(out, byte_at(after, at));
    out.end_line();
    out.text(b"  ");
    put_site(out, before, at);
    out.end_line();
}

fn put_no(out: &mut Out, path: &[u8], before: &[u8], other: &[u8], after: &[u8], at: usize) {
    if before.len() <= at {
        put_ended(out, path, after, at);
        return;
    }
    if after.len() <= at {
        put_ended(out, other, before, at);
        return;
    }
    put_first(out, before, after, at);
}

// Whether a refusal speaks of the file that came back.
fn is_after(which: Which) -> bool {
    match which {
        Which::Neither => false,
        Which::BeforeFile => false,
        Which::AfterFile => true,
        Which::BeforeBody => false,
        Which::AfterBody => true,
    }
}

fn complain_checked(
    rt: &impl Host,
    path: &[u8],
    before: &[u8],
    other: &[u8],
    after: &[u8],
    checked: Checked,
) -> Cannot {
    let which = checked.which;
    if is_after(which) {
        return complain_refused(rt, b"verify", other, after);
    }
    complain_refused(rt, b"verify", path, before)
}

// Tells what the call answers.
fn verify_files(
    rt: &impl Host,
    out: &mut Out,
    path: &[u8],
    before: &[u8],
    other: &[u8],
    after: &[u8],
    name: &[u8],
    given: &[u8],
) -> Result<Status, Cannot> {
    let sought = seek(rt, b"verify", path, before, name, given)?;
    let channel = sought.channel;
    let checked = check_files(before, after, sought.group, SourceChannel(channel));
    if checked.number != 0 {
        return Err(complain_checked(rt, path, before, other, after, checked));
    }
    if checked.yes {
        return Ok(put_yes(out, before == after, channel, name));
    }
    out.text(b"no: the files differ outside ");
    put_channel(out, channel, name);
    out.end_line();
    put_no(out, path, before, other, after, checked.unlike);
    Ok(Status::No)
}

fn verify_read(
    rt: &impl Host,
    out: &mut Out,
    path: &[u8],
    sent: &[u8; FILE],
    length: usize,
    other: &[u8],
    name: &[u8],
    given: &[u8],
) -> Result<Status, Cannot> {
    let mut bytes = tool_files::room();
    let more = read(rt, other, &mut bytes)?;
    verify_files(
        rt,
        out,
        path,
        contents(sent, length),
        other,
        contents(&bytes, more),
        name,
        given,
    )
}

fn verify_paths(
    rt: &impl Host,
    out: &mut Out,
    path: &[u8],
    other: &[u8],
    name: &[u8],
    given: &[u8],
) -> Result<Status, Cannot> {
    let mut bytes = tool_files::room();
    let length = read(rt, path, &mut bytes)?;
    verify_read(rt, out, path, &bytes, length, other, name, given)
}

// An argument too many.
fn complain_more(rt: &impl Host, i: usize) -> Cannot {
    let given = Argument::at(rt, i);
    let mut out = begin(rt, b"verify");
    quoted(&mut out, given.text());
    out.text(b" is too much; expected casm verify BEFORE AFTER PART CHANNEL");
    end(rt, &mut out);
    Cannot
}

// `casm verify BEFORE AFTER PART CHANNEL`, the arguments from number `first` on.
pub fn verify(rt: &impl Host, out: &mut Out, first: usize) -> Result<Status, Cannot> {
    let given = tool_ends::arg_count(rt).saturating_sub(first);
    if given < 2 {
        return Err(complain(
            rt,
            b"verify",
            b"no BEFORE and AFTER; expected casm verify BEFORE AFTER PART CHANNEL",
        ));
    }
    if 4 < given {
        return Err(complain_more(rt, first.saturating_add(4)));
    }
    let path = Argument::at(rt, first);
    let other = Argument::at(rt, first.saturating_add(1));
    let name = Argument::at(rt, first.saturating_add(2));
    let channel = Argument::at(rt, first.saturating_add(3));
    verify_paths(
        rt,
        out,
        path.text(),
        other.text(),
        name.text(),
        channel.text(),
    )
}
