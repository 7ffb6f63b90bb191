// Where a text is cut into lines of a width: after a comma where that will do, so that a name stays in one piece, else at a space, and else where the line ends.
use crate::WIDE;
use tool_bytes::{byte_at, part};
use tool_out::Out;
use tool_out::words::trimmed;

// A line may end at place i where a space stands there, behind a comma where that is asked; else where it could end before.
fn better_end(s: &[u8], from: usize, i: usize, is_comma: bool, before: usize) -> usize {
    if byte_at(s, i) != b' ' {
        return before;
    }
    if i <= from {
        return before;
    }
    if is_comma {
        if byte_at(s, i.saturating_sub(1)) != b',' {
            return before;
        }
    }
    i
}

// The last place of at most `to` at which a line that begins at `from` may end, or `from`.
fn last_end(s: &[u8], from: usize, to: usize, is_comma: bool) -> usize {
    let mut end = from;
    for i in from..to {
        end = better_end(s, from, i + 1, is_comma, end);
    }
    end
}

// Where the line that begins at `from` ends, of a text that ends at `end`.
pub fn line_end(s: &[u8], from: usize, end: usize, width: usize, at_commas: bool) -> usize {
    if end.saturating_sub(from) <= width {
        return end;
    }
    let last = from.saturating_add(width);
    if at_commas {
        let comma = last_end(s, from, last, true);
        if from < comma {
            return comma;
        }
    }
    let space = last_end(s, from, last, false);
    if from < space {
        return space;
    }
    last
}

// Where the next line begins: the space at which a line ended is left out.
pub fn next_line(s: &[u8], ended: usize, end: usize) -> usize {
    if end <= ended {
        return end;
    }
    if byte_at(s, ended) == b' ' {
        return ended.saturating_add(1);
    }
    ended
}

// A line without the spaces at its end.
pub fn put_line(out: &mut Out, s: &[u8], from: usize, end: usize) {
    out.text(trimmed(part(s, from, end.saturating_sub(from))));
}

// What a writer in memory holds, in lines: the first goes on where the writer stands, the others begin behind an indent; no line is wider than what the indent leaves.
pub fn put_wrapped(out: &mut Out, words: &Out, indent: usize, at_commas: bool) {
    let s = words.held();
    let end = s.len();
    let mut from: usize = 0;
    for _ in 0..end {
        let ended = line_end(s, from, end, WIDE.saturating_sub(indent), at_commas);
        put_line(out, s, from, ended);
        out.end_line();
        from = next_line(s, ended, end);
        if end <= from {
            return;
        }
        out.fill(b' ', indent);
    }
    out.end_line();
}
