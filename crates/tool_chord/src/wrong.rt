// What is told on standard error of a chord, a note or a channel that is none.
use crate::{NoChord, behind_root};
use tool_ends::{Cannot, Host, begin, end, quoted};
use tool_out::Out;
use tool_words::put_chord;

// The chord types behind the first.
fn put_types(out: &mut Out) {
    for kind in 1..34 {
        out.text(b", ");
        put_chord(out, kind);
    }
}

// Why a text is no chord, as `parse_chord` told.
pub fn complain_chord(rt: &impl Host, command: &[u8], given: &[u8], why: NoChord) -> Cannot {
    let mut out = begin(rt, command);
    match why {
        NoChord::NoRoot => {
            out.text(b"no root in ");
            quoted(&mut out, given);
            out.text(b"; a chord begins with A-G, then # or b");
        }
        NoChord::NoType => {
            out.text(b"no chord type ");
            quoted(&mut out, behind_root(given));
            out.text(b"; the types are Maj (or nothing)");
            put_types(&mut out);
        }
    }
    end(rt, &mut out);
    Cannot
}

pub fn complain_note(rt: &impl Host, command: &[u8], given: &[u8]) -> Cannot {
    let mut out = begin(rt, command);
    out.text(b"no note ");
    quoted(&mut out, given);
    out.text(b"; a note is C-2 to G8, or 0-127; C3 is 60");
    end(rt, &mut out);
    Cannot
}

pub fn complain_channel(rt: &impl Host, command: &[u8], given: &[u8]) -> Cannot {
    let mut out = begin(rt, command);
    out.text(b"no channel ");
    quoted(&mut out, given);
    out.text(b"; channels are 1-16");
    end(rt, &mut out);
    Cannot
}
