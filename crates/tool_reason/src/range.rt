// The values that a byte may have, in words, asked of the library's own tables of ranges: `00H-02H or 80H-82H`.
use tool_out::Out;

// The chunks that have ranges.
#[derive(Clone, Copy, PartialEq, Eq)]
pub enum Chunk {
    Ctab,
    Ctb2,
    Cntt,
}

// A range of values; none where the lowest is 256.
#[derive(Clone, Copy)]
struct Span {
    low: usize,
    high: usize,
}

// Whether byte k of a chunk may have a value, behind the byte `rule`.
fn is_allowed(chunk: Chunk, k: usize, rule: u8, value: u8) -> bool {
    match chunk {
        Chunk::Ctb2 => k < 47 && !read_ranges::ctb2::is_out_ctb2(k, rule, value),
        Chunk::Cntt if 0 < k => read_ranges::is_cntt_value(value as usize),
        _ => k < 27 && !read_ranges::ctab::is_out_ctab(k, rule, value),
    }
}

// The first value from `from` on that is allowed, or that is not; 256 where there is none.
fn first_value(chunk: Chunk, k: usize, rule: u8, from: usize, is_sought: bool) -> usize {
    for v in from..256 {
        if is_allowed(chunk, k, rule, (v % 256) as u8) == is_sought {
            return v;
        }
    }
    256
}

fn next_span(chunk: Chunk, k: usize, rule: u8, from: usize) -> Span {
    let low = first_value(chunk, k, rule, from, true);
    Span {
        low,
        high: first_value(chunk, k, rule, low, false),
    }
}

// A byte in hex as the documents write it: `7FH`.
pub fn put_value(out: &mut Out, value: usize) {
    out.upper_pair((value % 256) as u8);
    out.text(b"H");
}

fn put_span(out: &mut Out, span: Span) {
    put_value(out, span.low);
    if span.low.saturating_add(1) < span.high {
        out.text(b"-");
        put_value(out, span.high.saturating_sub(1));
    }
}

// What stands before a range: nothing before the first, and `or` before the last.
fn put_between(out: &mut Out, before: usize, is_last: bool) {
    if before == 0 {
        return;
    }
    if is_last {
        out.text(b" or ");
        return;
    }
    out.text(b", ");
}

// The ranges of byte k of a chunk, behind the byte `rule`.
pub fn put_ranges(out: &mut Out, chunk: Chunk, k: usize, rule: u8) {
    let mut from: usize = 0;
    let mut before: usize = 0;
    for _ in 0..129 {
        let span = next_span(chunk, k, rule, from);
        if 255 < span.low {
            return;
        }
        let after = next_span(chunk, k, rule, span.high);
        put_between(out, before, 255 < after.low);
        put_span(out, span);
        from = span.high;
        before = before.saturating_add(1);
    }
}
