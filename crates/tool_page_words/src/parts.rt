// The part names of a group, each in a box of its own.
use tool_bytes::part;
use tool_look::totals::parts_of;
use tool_out::Out;
use tool_out::shown::How;
use tool_reason::detail::name_end;

// The name that begins at `from`.
fn name_at<'a>(s: &'a [u8], from: usize) -> &'a [u8] {
    part(s, from, name_end(s, from, s.len()).saturating_sub(from))
}

fn put_span(out: &mut Out, name: &[u8]) {
    out.text(b"<span>");
    out.text_as(How::Html, name);
    out.text(b"</span>");
}

pub fn put_spans(out: &mut Out, s: &[u8]) {
    let mut from: usize = 0;
    for _ in 0..parts_of(s) {
        let name = name_at(s, from);
        if 0 < from {
            out.byte(b' ');
        }
        put_span(out, name);
        from = from.saturating_add(name.len()).saturating_add(1);
    }
}
