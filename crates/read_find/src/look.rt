// What is looked up in a file or a body (document 01, "Numbers of refusal": after the body): a section's body, the groups of a body, a part, a channel, a group's text.
// An answer carries its number and place as fields, since the promises and the C calls speak of them so: each is made of a Result here.
ghost use Rattle.std.specs.Prelude.{◌≡◌};
ghost use Rattle.layout.specs.Answers.{nowhere};
ghost use Rattle.layout.specs.Promises.{SectionShown, BodyRead, GroupFound, PartFound, ChannelFound, TextShown};

use crate::row::find_record;
use crate::{asked_group, found_or, locate_part, run_body};
use layout::answer::{Channelled, Counted, Grouped, Named, Standing};
use layout::edition::Edition;
use layout::record::SourceChannel;
use layout::refusal::NOT_THERE;

// The body of a section whose tag stands at `tag`, where it lies; what of it is past the file's end is left off.
pub fn section_body<'a>(file: &'a [u8], tag: usize, length: usize) -> &'a [u8]
    ensures { SectionShown file.now tag length result.now }
{
    if file.len() < 8 {
        return &file[0..0];
    }
    if file.len() - 8 < tag {
        return &file[0..0];
    }
    let start = tag + 8;
    if file.len() - start < length {
        return &file[start..];
    }
    let end = start + length;
    &file[start..end]
}

// Reads a body strictly: the number of its groups.
pub fn read_body(s: &[u8]) -> Counted
    ensures { BodyRead s.now result }
{
    match run_body(s) {
        Err(why) => Counted {
            number: why.number,
            place: why.place,
            count: 0,
        },
        Ok(n) => Counted {
            number: 0,
            place: 0,
            count: n,
        },
    }
}

// A standing with every field 0.
fn no_standing() -> Standing
    ensures { result ≡ nowhere }
{
    Standing {
        edition: Edition::First,
        at: 0,
        size: 0,
        text: 0,
        length: 0,
        ctabs: 0,
        records: 0,
        cntts: 0,
        seconds: 0,
    }
}

// Where a group of a body and its parts stand, by the group's number.
pub fn find_group(s: &[u8], group: usize) -> Grouped
    ensures { GroupFound s.now group result }
{
    match asked_group(s, group) {
        Err(why) => Grouped {
            number: why.number,
            place: why.place,
            group: no_standing(),
        },
        Ok(found) => Grouped {
            number: 0,
            place: 0,
            group: found.standing,
        },
    }
}

// The number of the group that has a part.
pub fn find_part(s: &[u8], name: &[u8]) -> Named
    ensures { PartFound s.now name.now result }
{
    match found_or(locate_part(s, name), NOT_THERE) {
        Err(why) => Named {
            number: why.number,
            place: why.place,
            group: 0,
        },
        Ok(found) => Named {
            number: 0,
            place: 0,
            group: found.group,
        },
    }
}

// The record of a source channel in a group: its number among the Ctabs and the place of its byte 0.
pub fn find_channel(s: &[u8], group: usize, channel: SourceChannel) -> Channelled
    ensures { ChannelFound s.now group channel.0 result }
{
    match find_record(s, group, channel) {
        Err(why) => Channelled {
            number: why.number,
            place: why.place,
            row: 0,
            at: 0,
        },
        Ok(found) => Channelled {
            number: 0,
            place: 0,
            row: found.row,
            at: found.at,
        },
    }
}

// The text of a group's Sdec, where it lies; empty on refusal.
pub fn group_text<'a>(s: &'a [u8], group: usize) -> &'a [u8]
    ensures { TextShown s.now group result.now }
{
    match asked_group(s, group) {
        Err(_) => &s[0..0],
        Ok(found) => {
            let start = found.standing.text;
            let end = start + found.standing.length;
            &s[start..end]
        }
    }
}
