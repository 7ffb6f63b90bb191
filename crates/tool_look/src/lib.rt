// What a file is found to be: its CASM section, whether the body is sound, and the body's entries.
#![tactic(auto)]

pub mod list;
pub mod totals;

use casm::list::{judge_entry, list_salvage};
use casm::read::{find_casm, read_body};
use layout::answer::{Counted, Located};
use layout::refusal::NOT_STYLE;
use list::List;
use tool_bytes::part;

#[derive(Clone, Copy, PartialEq, Eq)]
pub enum Verdict {
    Sound,
    Damaged,
    NoCasm,
    NoStyle,
}

impl Verdict {
    pub fn words(self) -> &'static [u8] {
        match self {
            Verdict::Sound => b"sound",
            Verdict::Damaged => b"damaged",
            Verdict::NoCasm => b"no CASM",
            Verdict::NoStyle => b"not a style file",
        }
    }
}

// A CASM section: the place of its tag, the length of its body, and how many entries that has.
#[derive(Clone, Copy)]
pub struct Found {
    pub tag: usize,
    pub length: usize,
    pub count: usize,
}

// What was found. A refusal's place counts from the body's start where there is a body, and else from the file's.
#[derive(Clone, Copy)]
pub struct Seen {
    pub verdict: Verdict,
    pub number: u8,
    pub place: usize,
    pub found: Option<Found>,
}

impl Seen {
    // The body, empty where there is none.
    pub fn body<'a>(&self, file: &'a [u8]) -> &'a [u8] {
        match self.found {
            Some(found) => body_of(file, found.tag, found.length),
            None => b"",
        }
    }

    pub fn count(&self) -> usize {
        match self.found {
            Some(found) => found.count,
            None => 0,
        }
    }

    // Where the body begins in the file.
    pub fn body_place(&self) -> usize {
        match self.found {
            Some(found) => found.tag.saturating_add(8),
            None => 0,
        }
    }

    // Whether the section whose tag stands there has the body.
    pub fn is_at(&self, tag: usize) -> bool {
        match self.found {
            Some(found) => found.tag == tag,
            None => false,
        }
    }

    // How long the body is.
    pub fn body_length(&self) -> usize {
        match self.found {
            Some(found) => found.length,
            None => 0,
        }
    }

    // The refusal's place in the file.
    pub fn file_place(&self) -> usize {
        self.body_place().saturating_add(self.place)
    }
}

fn verdict_without(number: u8) -> Verdict {
    if number == NOT_STYLE {
        return Verdict::NoStyle;
    }
    if number == layout::refusal::NO_CASM {
        return Verdict::NoCasm;
    }
    Verdict::Damaged
}

fn without_body(found: Located) -> Seen {
    Seen {
        verdict: verdict_without(found.number),
        number: found.number,
        place: found.place,
        found: None,
    }
}

// The groups of a body that is sound, one behind the other: a name in it may hold the letters of a tag, so the salvage list could cut elsewhere.
fn list_groups(body: &[u8], list: &mut List, count: usize) {
    let mut at: usize = 0;
    for k in 0..count {
        let judged = judge_entry(part(body, at, body.len().saturating_sub(at)));
        list.put_group(k, at, judged.length);
        at = at.saturating_add(judged.length);
    }
}

// The entries of a body: its groups where it is sound, and else its salvage list. How many there are.
fn list_entries(body: &[u8], read: Counted, list: &mut List) -> usize {
    if read.number == 0 {
        list_groups(body, list, read.count);
        return read.count;
    }
    let listed = list_salvage(body, list.lent());
    listed.count
}

// The body of a section whose tag stands at `tag`.
pub fn body_of<'a>(file: &'a [u8], tag: usize, length: usize) -> &'a [u8] {
    casm::read::section_body(file, tag, length)
}

fn with_body(file: &[u8], found: Located, list: &mut List) -> Seen {
    let body = body_of(file, found.tag, found.length);
    let read = read_body(body);
    let count = list_entries(body, read, list);
    let mut verdict = Verdict::Sound;
    if read.number != 0 {
        verdict = Verdict::Damaged;
    }
    Seen {
        verdict,
        number: read.number,
        place: read.place,
        found: Some(Found {
            tag: found.tag,
            length: found.length,
            count,
        }),
    }
}

// Looks at a file, and fills the list with the entries of its body.
pub fn look(file: &[u8], list: &mut List) -> Seen {
    let found = find_casm(file);
    if found.number != 0 {
        return without_body(found);
    }
    with_body(file, found, list)
}
