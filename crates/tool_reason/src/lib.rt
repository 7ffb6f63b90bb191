// Why a file, a body or an entry of it is refused: which case of the refusal it is, told from the bytes at its place, and what there is to say of it.
#![tactic(auto)]

pub mod detail;
pub mod range;

use casm::list::judge_entry;
use layout::refusal;
use tool_bytes::{is_tag, part, word_at};
use tool_look::Seen;
use tool_look::list::{Entry, List};
use tool_words::reasons::Reason;

// A refusal: its number, its case, and its place in the bytes that it speaks of, a file's or a body's. The group or the section that it stands in begins at `start`, and what it must not run past ends at `end`.
#[derive(Clone, Copy)]
pub struct Cause {
    pub number: u8,
    pub case: Reason,
    pub place: usize,
    pub start: usize,
    pub end: usize,
}

// The case of a number that has one alone.
fn only_case(number: u8) -> Reason {
    match number {
        refusal::NOT_STYLE => Reason::NotStyle,
        refusal::TAG_AGAIN => Reason::TagAgain,
        refusal::NO_CASM => Reason::NoCasm,
        refusal::BAD_SIZE => Reason::BadSize,
        refusal::BAD_TEXT => Reason::BadText,
        refusal::OUT_OF_RANGE => Reason::OutOfRange,
        refusal::CHANNEL_AGAIN => Reason::ChannelAgain,
        refusal::STRAY_CNTT => Reason::StrayCntt,
        refusal::TOO_MANY_GROUPS => Reason::TooManyGroups,
        refusal::NAME_AGAIN => Reason::NameAgain,
        refusal::OTHER_EDITION => Reason::OtherEdition,
        refusal::READ_ONLY => Reason::ReadOnly,
        refusal::ROOT_FIXED => Reason::NotByRoot,
        _ => Reason::BadNumber,
    }
}

fn file_case(file: &[u8], number: u8, place: usize) -> Reason {
    match number {
        refusal::CUT if file.len().saturating_sub(place) < 8 => Reason::HeaderCut,
        refusal::CUT => Reason::SectionPast,
        refusal::OVER_LIMIT if place == 0 => Reason::FileOver,
        refusal::OVER_LIMIT => Reason::BodyOver,
        _ => only_case(number),
    }
}

// A refusal of a file: no CASM body is found in it.
pub fn cause_of_file(file: &[u8], number: u8, place: usize) -> Cause {
    Cause {
        number,
        case: file_case(file, number, place),
        place,
        start: place,
        end: file.len(),
    }
}

// Where the parent ends of what stands at place q of a piece that begins with a group: the piece's end, or the group's.
pub fn parent_end(piece: &[u8], q: usize) -> usize {
    if q == 0 {
        return piece.len();
    }
    word_at(piece, 4).saturating_add(8)
}

// The case of 2 at place q of a piece.
fn cut_case(piece: &[u8], q: usize, is_last: bool) -> Reason {
    if parent_end(piece, q).saturating_sub(q) < 8 {
        return Reason::HeaderCut;
    }
    if 0 < q {
        return Reason::ChunkPast;
    }
    if is_last {
        return Reason::LastGroupPast;
    }
    Reason::GroupPast
}

fn group_case(piece: &[u8], number: u8, q: usize, is_last: bool) -> Reason {
    match number {
        refusal::CUT => cut_case(piece, q, is_last),
        refusal::BAD_TAG if q == 0 && is_tag(piece, 0, b"CSEG") => Reason::EmptyGroup,
        refusal::BAD_TAG => Reason::BadTag,
        _ => only_case(number),
    }
}

fn loose(start: usize, end: usize) -> Cause {
    Cause {
        number: refusal::BAD_TAG,
        case: Reason::Loose,
        place: start,
        start,
        end,
    }
}

// The refusal of an entry, judged by its bytes alone.
pub fn cause_of_entry(body: &[u8], entry: Entry) -> Cause {
    let start = entry.place;
    let end = start.saturating_add(entry.length);
    if entry.is_loose(body) {
        return loose(start, end);
    }
    let piece = entry.bytes(body);
    let judged = judge_entry(piece);
    Cause {
        number: judged.number,
        case: group_case(piece, judged.number, judged.place, end == body.len()),
        place: start.saturating_add(judged.place),
        start,
        end,
    }
}

// Where the group begins in which a place of a body is refused: the groups before it are sound.
fn group_start(body: &[u8], place: usize) -> usize {
    let mut at: usize = 0;
    for _ in 0..body.len() {
        let judged = judge_entry(part(body, at, body.len().saturating_sub(at)));
        let next = at.saturating_add(judged.length);
        if judged.number != 0 || place < next {
            return at;
        }
        at = next;
    }
    at
}

fn strict_cause(body: &[u8], number: u8, place: usize) -> Cause {
    let start = group_start(body, place);
    let piece = part(body, start, body.len().saturating_sub(start));
    Cause {
        number,
        case: group_case(piece, number, place.saturating_sub(start), true),
        place,
        start,
        end: body.len(),
    }
}

// The entry that has a place.
fn entry_with(list: &List, count: usize, place: usize) -> Option<Entry> {
    for k in 0..count {
        let entry = list.at(k);
        if place < entry.place.saturating_add(entry.length) {
            return Some(entry);
        }
    }
    None
}

// The refusal of a body. Where the entry there is refused with the same number at the same place its words are used, for it knows the next group.
pub fn cause_of_body(body: &[u8], list: &List, count: usize, number: u8, place: usize) -> Cause {
    if let Some(entry) = entry_with(list, count, place) {
        if !entry.is_sound() {
            let cause = cause_of_entry(body, entry);
            if cause.number == number && cause.place == place {
                return cause;
            }
        }
    }
    strict_cause(body, number, place)
}

// The refusal of a file that was looked at: of the file, or of its body.
pub fn cause_of(file: &[u8], list: &List, seen: Seen) -> Cause {
    if seen.found.is_none() {
        return cause_of_file(file, seen.number, seen.place);
    }
    let body = seen.body(file);
    cause_of_body(body, list, seen.count(), seen.number, seen.place)
}
