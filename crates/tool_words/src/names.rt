// The names that people read, each once: for the report, the page and the JSON alike.
// A value past the end of what is named has the name of the first.

// Chord roots, and the notes of an octave.
pub fn root(root: u8) -> &'static [u8] {
    match root {
        1 => b"C#",
        2 => b"D",
        3 => b"Eb",
        4 => b"E",
        5 => b"F",
        6 => b"F#",
        7 => b"G",
        8 => b"G#",
        9 => b"A",
        10 => b"Bb",
        11 => b"B",
        _ => b"C",
    }
}

// Chord types (document 01, "Who plays").
pub fn chord(kind: u8) -> &'static [u8] {
    match kind {
        1 => b"Maj6",
        2 => b"Maj7",
        3 => b"M7#11",
        4 => b"Madd9",
        5 => b"M7(9)",
        6 => b"M6(9)",
        7 => b"aug",
        8 => b"m",
        9 => b"m6",
        10 => b"m7",
        11 => b"m7b5",
        12 => b"m(9)",
        13 => b"m7(9)",
        14 => b"m7(11)",
        15 => b"mM7",
        16 => b"mM7(9)",
        17 => b"dim",
        18 => b"dim7",
        19 => b"7",
        20 => b"7sus",
        21 => b"7b5",
        22 => b"7(9)",
        23 => b"7(#11)",
        24 => b"7(13)",
        25 => b"7(b9)",
        26 => b"7(b13)",
        27 => b"7(#9)",
        28 => b"M7aug",
        29 => b"7aug",
        30 => b"1+8",
        31 => b"1+5",
        32 => b"sus4",
        33 => b"1+2+5",
        _ => b"Maj",
    }
}

// Destination channels 9-16 (000, table 32).
pub fn destination(from_nine: u8) -> &'static [u8] {
    match from_nine {
        1 => b"Rhythm",
        2 => b"Bass",
        3 => b"Chord 1",
        4 => b"Chord 2",
        5 => b"Pad",
        6 => b"Phrase 1",
        7 => b"Phrase 2",
        _ => b"Sub-Rhythm",
    }
}

// The rule that has tables of its own.
pub const GUITAR: u8 = 2;

// Transposition rules.
pub fn rule(rule: u8) -> &'static [u8] {
    match rule {
        1 => b"Root Fixed",
        2 => b"Guitar",
        _ => b"Root Trans",
    }
}

// Transposition tables as byte 21 of a Ctab has them.
pub fn table_21(table: u8) -> &'static [u8] {
    match table {
        1 => b"Melody",
        2 => b"Chord",
        3 => b"Bass",
        4 => b"Melodic minor",
        5 => b"Harmonic minor",
        _ => b"Bypass",
    }
}

// Transposition tables as a Cntt and a set of a Ctb2 have them, without bit 7.
pub fn table(table: u8) -> &'static [u8] {
    match table {
        1 => b"Melody",
        2 => b"Chord",
        3 => b"Melodic minor",
        4 => b"Melodic minor 5th Var.",
        5 => b"Harmonic minor",
        6 => b"Harmonic minor 5th Var.",
        7 => b"Natural minor",
        8 => b"Natural minor 5th Var.",
        9 => b"Dorian",
        10 => b"Dorian 5th Var.",
        _ => b"Bypass",
    }
}

// The same under the rule Guitar.
pub fn guitar_table(table: u8) -> &'static [u8] {
    match table {
        1 => b"Stroke",
        2 => b"Arpeggio",
        _ => b"All-Purpose",
    }
}

// Retrigger rules.
pub fn retrigger(retrigger: u8) -> &'static [u8] {
    match retrigger {
        1 => b"Pitch shift",
        2 => b"Pitch shift to root",
        3 => b"Retrigger",
        4 => b"Retrigger to root",
        5 => b"Note generator",
        _ => b"Stop",
    }
}

// Editions: none, the first, the second, both.
pub fn edition(edition: u8) -> &'static [u8] {
    match edition {
        1 => b"first edition",
        2 => b"second edition",
        3 => b"both editions",
        _ => b"no channels",
    }
}

// The sets of a Ctb2.
pub fn set(set: u8) -> &'static [u8] {
    match set {
        1 => b"middle",
        2 => b"high",
        _ => b"low",
    }
}
