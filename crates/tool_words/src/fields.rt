// The fields of a record by its bytes (001, 1.1 and 1.2), each named once.
use crate::names::set;
use tool_out::Out;

// The bytes that the editions share, the six of a set, and what else an edition has.
#[derive(Clone, Copy)]
enum Field {
    SourceChannel,
    VoiceName,
    Destination,
    Lock,
    RootMask,
    ChordMask,
    SourceRoot,
    SourceChord,
    Rule,
    Table,
    HighKey,
    LowLimit,
    HighLimit,
    Retrigger,
    EndMarker,
    LowestMiddle,
    HighestMiddle,
    Unexplained,
}

impl Field {
    fn name(self) -> &'static [u8] {
        match self {
            Field::SourceChannel => b"source channel",
            Field::VoiceName => b"voice name",
            Field::Destination => b"destination channel",
            Field::Lock => b"lock",
            Field::RootMask => b"root mask",
            Field::ChordMask => b"chord mask",
            Field::SourceRoot => b"source root",
            Field::SourceChord => b"source chord type",
            Field::Rule => b"rule",
            Field::Table => b"table",
            Field::HighKey => b"high key",
            Field::LowLimit => b"low limit",
            Field::HighLimit => b"high limit",
            Field::Retrigger => b"retrigger",
            Field::EndMarker => b"end marker",
            Field::LowestMiddle => b"lowest middle note",
            Field::HighestMiddle => b"highest middle note",
            Field::Unexplained => b"unexplained",
        }
    }
}

// A record of the first edition has one set, from byte 20 on; one of the second has three, from byte 22 on.
pub const SET: usize = 20;

pub const SETS: usize = 22;

// The field of a byte that the editions share.
fn shared_field(k: usize) -> Field {
    match k {
        0 => Field::SourceChannel,
        1..=8 => Field::VoiceName,
        9 => Field::Destination,
        10 => Field::Lock,
        11..=12 => Field::RootMask,
        13..=17 => Field::ChordMask,
        18 => Field::SourceRoot,
        _ => Field::SourceChord,
    }
}

// The field of a byte of a set.
fn set_field(k: usize) -> Field {
    match k % 6 {
        0 => Field::Rule,
        1 => Field::Table,
        2 => Field::HighKey,
        3 => Field::LowLimit,
        4 => Field::HighLimit,
        _ => Field::Retrigger,
    }
}

// The field of byte k of a record.
fn field_of(is_second: bool, k: usize) -> Field {
    if k < SET {
        return shared_field(k);
    }
    if !is_second {
        if k < 26 {
            return set_field(k - SET);
        }
        return Field::EndMarker;
    }
    match k {
        20 => Field::LowestMiddle,
        21 => Field::HighestMiddle,
        22..=39 => set_field(k - SETS),
        _ => Field::Unexplained,
    }
}

// Whose set byte k of a Ctb2 belongs to: the low, the middle or the high notes'.
pub fn set_of(k: usize) -> u8 {
    if k < 28 {
        return 0;
    }
    if k < 34 {
        return 1;
    }
    2
}

// The name of byte k's field: in a set of three also whose it is.
pub fn put_field(out: &mut Out, is_second: bool, k: usize) {
    out.text(field_of(is_second, k).name());
    if !is_second || k < SETS || 40 <= k {
        return;
    }
    out.text(b" of the ");
    out.text(set(set_of(k)));
    out.text(b" notes");
}
