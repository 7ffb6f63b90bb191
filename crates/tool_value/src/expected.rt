// What values a kind has, for someone who gave another.
use crate::Kind;
use tool_out::Out;

// The first names of a kind.
fn put_names(out: &mut Out, kind: Kind, count: u8) {
    for k in 0..count {
        if 0 < k {
            out.text(b", ");
        }
        kind.put_named(out, kind.byte_named(k));
    }
}

// How many names are said: of tables those without the bass.
fn count_said(kind: Kind) -> u8 {
    match kind {
        Kind::Table => 11,
        Kind::GuitarTable => 3,
        _ => kind.count(),
    }
}

// The numbers that stand for the names too.
fn numbers(kind: Kind) -> &'static [u8] {
    match kind {
        Kind::Root => b" or 0-11",
        Kind::Destination => b" or 9-16",
        Kind::FirstRule => b" or 0-1",
        Kind::Rule => b" or 0-2",
        Kind::FirstTable | Kind::Retrigger => b" or 0-5",
        Kind::Table => b" or 0-10, with the bass each with + Bass behind it or 128-138",
        Kind::GuitarTable => b" or 0-2, with the bass each with + Bass behind it or 128-130",
        _ => b"",
    }
}

fn put_mask(out: &mut Out, kind: Kind) {
    out.text(b"all, none, names with commas between them, or all but and names; the names are ");
    put_names(out, kind, kind.count());
}

pub fn put_expected(out: &mut Out, kind: Kind) {
    match kind {
        Kind::Switch => out.text(b"yes or no"),
        Kind::Note => out.text(b"C-2 to G8 or 0-127; C3 is 60"),
        Kind::Voice => out.text(b"up to 8 bytes"),
        Kind::Roots => put_mask(out, Kind::Root),
        Kind::Chords => put_mask(out, Kind::Chord),
        _ => {
            put_names(out, kind, count_said(kind));
            out.text(numbers(kind));
        }
    }
}
