// A channel of a part of a file, as a command names it: found, or said why not.
#![tactic(auto)]

use casm::read::{find_channel, find_group, find_part};
use layout::answer::Channelled;
use layout::edition::Edition;
use layout::record::SourceChannel;
use tool_asked::body::{complain_no_part, complain_part, complain_unsound};
use tool_chord::note::parse_channel;
use tool_chord::wrong::complain_channel;
use tool_ends::{Cannot, Host, begin, end};
use tool_look::list::List;
use tool_look::{Verdict, look};
use tool_out::Out;
use tool_out::shown::How;

// The number of the group, the channel's byte, the place of its record in the file, and whether it is of the second edition.
#[derive(Clone, Copy)]
pub struct Sought {
    pub group: usize,
    pub channel: u8,
    pub at: usize,
    pub is_second: bool,
}

fn is_second_group(body: &[u8], group: usize) -> bool {
    let found = find_group(body, group);
    let standing = found.group;
    let edition = standing.edition;
    match edition {
        Edition::First => false,
        Edition::Second => true,
    }
}

fn has_channel(body: &[u8], group: usize, channel: u8) -> bool {
    let found = find_channel(body, group, SourceChannel(channel));
    found.number == 0
}

// The channels that a group has.
fn put_channels(out: &mut Out, body: &[u8], group: usize) {
    let mut has_any = false;
    for channel in 0..16 {
        if has_channel(body, group, channel) {
            if has_any {
                out.text(b", ");
            }
            out.number(channel as usize + 1);
            has_any = true;
        }
    }
    if !has_any {
        out.text(b"none");
    }
}

fn put_there(rt: &impl Host, out: &mut Out, name: &[u8], body: &[u8], group: usize) {
    out.text(b"; the channels of ");
    out.text_as(How::Shown, name);
    out.text(b" are ");
    put_channels(out, body, group);
    end(rt, out);
}

fn complain_no_channel(
    rt: &impl Host,
    command: &[u8],
    name: &[u8],
    body: &[u8],
    group: usize,
) -> Cannot {
    let mut out = begin(rt, command);
    out.text(b"no CHANNEL");
    put_there(rt, &mut out, name, body, group);
    Cannot
}

fn complain_absent(
    rt: &impl Host,
    command: &[u8],
    name: &[u8],
    body: &[u8],
    group: usize,
    channel: u8,
) -> Cannot {
    let mut out = begin(rt, command);
    out.text(b"no channel ");
    out.number((channel as usize).saturating_add(1));
    out.text(b" in ");
    out.text_as(How::Shown, name);
    put_there(rt, &mut out, name, body, group);
    Cannot
}

fn found_at(body: &[u8], start: usize, group: usize, channel: u8, found: Channelled) -> Sought {
    Sought {
        group,
        channel,
        at: start.saturating_add(found.at),
        is_second: is_second_group(body, group),
    }
}

fn seek_channel(
    rt: &impl Host,
    command: &[u8],
    name: &[u8],
    body: &[u8],
    start: usize,
    group: usize,
    given: &[u8],
) -> Result<Sought, Cannot> {
    if given.is_empty() {
        return Err(complain_no_channel(rt, command, name, body, group));
    }
    let Some(channel) = parse_channel(given) else {
        return Err(complain_channel(rt, command, given));
    };
    let found = find_channel(body, group, SourceChannel(channel));
    if found.number != 0 {
        return Err(complain_absent(rt, command, name, body, group, channel));
    }
    Ok(found_at(body, start, group, channel, found))
}

fn seek_part(
    rt: &impl Host,
    command: &[u8],
    path: &[u8],
    body: &[u8],
    start: usize,
    groups: usize,
    name: &[u8],
    given: &[u8],
) -> Result<Sought, Cannot> {
    if name.is_empty() {
        return Err(complain_no_part(rt, command, path, body, groups));
    }
    let named = find_part(body, name);
    if named.number != 0 {
        return Err(complain_part(rt, command, name, path, body, groups));
    }
    seek_channel(rt, command, name, body, start, named.group, given)
}

// The channel that is written so, of the part of that name, in the file at a path.
pub fn seek(
    rt: &impl Host,
    command: &[u8],
    path: &[u8],
    file: &[u8],
    name: &[u8],
    given: &[u8],
) -> Result<Sought, Cannot> {
    let mut entries = List::new();
    let seen = look(file, &mut entries);
    if seen.verdict != Verdict::Sound {
        return Err(complain_unsound(rt, command, path, file, &entries, seen));
    }
    let body = seen.body(file);
    seek_part(
        rt,
        command,
        path,
        body,
        seen.body_place(),
        seen.count(),
        name,
        given,
    )
}

// What is wrong with a file that a call refused.
pub fn complain_refused(rt: &impl Host, command: &[u8], path: &[u8], file: &[u8]) -> Cannot {
    let mut entries = List::new();
    let seen = look(file, &mut entries);
    complain_unsound(rt, command, path, file, &entries, seen)
}
