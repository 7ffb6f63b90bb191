// How many entries of each kind a body has, and of its sound groups how many parts and channels, and the editions.
use crate::list::{Entry, Kind, List};
use casm::read::{find_group, group_text};
use layout::edition::Edition;

#[derive(Clone, Copy)]
pub struct Totals {
    pub sound: usize,
    pub damaged: usize,
    pub loose: usize,
    pub parts: usize,
    pub channels: usize,
    pub is_first: bool,
    pub is_second: bool,
}

fn none() -> Totals {
    Totals {
        sound: 0,
        damaged: 0,
        loose: 0,
        parts: 0,
        channels: 0,
        is_first: false,
        is_second: false,
    }
}

// How many names a list of part names has.
pub fn parts_of(text: &[u8]) -> usize {
    let mut n: usize = 1;
    for i in 0..text.len() {
        if text[i] == b',' {
            n = n.saturating_add(1);
        }
    }
    n
}

// The edition of a sound group: 0 where it has no channels.
pub fn edition_of(group: &[u8]) -> u8 {
    let found = find_group(group, 0);
    let standing = found.group;
    if standing.records == 0 {
        return 0;
    }
    let edition = standing.edition;
    match edition {
        Edition::First => 1,
        Edition::Second => 2,
    }
}

pub fn channels_of(group: &[u8]) -> usize {
    let found = find_group(group, 0);
    let standing = found.group;
    standing.records
}

fn with_group(before: Totals, group: &[u8]) -> Totals {
    let edition = edition_of(group);
    Totals {
        sound: before.sound.saturating_add(1),
        damaged: before.damaged,
        loose: before.loose,
        parts: before.parts.saturating_add(parts_of(group_text(group, 0))),
        channels: before.channels.saturating_add(channels_of(group)),
        is_first: before.is_first || edition == 1,
        is_second: before.is_second || edition == 2,
    }
}

fn with_other(before: Totals, damaged: usize, loose: usize) -> Totals {
    Totals {
        sound: before.sound,
        damaged: before.damaged.saturating_add(damaged),
        loose: before.loose.saturating_add(loose),
        parts: before.parts,
        channels: before.channels,
        is_first: before.is_first,
        is_second: before.is_second,
    }
}

fn with_entry(before: Totals, body: &[u8], entry: Entry) -> Totals {
    match entry.kind(body) {
        Kind::Sound => with_group(before, entry.bytes(body)),
        Kind::Loose => with_other(before, 0, 1),
        Kind::Damaged => with_other(before, 1, 0),
    }
}

// The totals of the first `count` entries.
pub fn totals_of(body: &[u8], list: &List, count: usize) -> Totals {
    let mut totals = none();
    for k in 0..count {
        totals = with_entry(totals, body, list.at(k));
    }
    totals
}

// The editions together: 0 none, 1 the first, 2 the second, 3 both.
pub fn editions(totals: Totals) -> u8 {
    if totals.is_first && totals.is_second {
        return 3;
    }
    if totals.is_second {
        return 2;
    }
    if totals.is_first {
        return 1;
    }
    0
}
