// The same rows as JSON: each with its place in the file, its bytes in hex, and the number of the marked one in it.
use crate::{Dump, is_shown, row_length, row_place, rows_of};
use tool_bytes::part;
use tool_out::Out;
use tool_out::shown::How;

fn put_marked(out: &mut Out, dump: Dump, place: usize, n: usize) {
    if dump.is_marked && place <= dump.mark && dump.mark < place.saturating_add(n) {
        out.number(dump.mark.saturating_sub(place));
        return;
    }
    out.text(b"null");
}

fn put_row(out: &mut Out, file: &[u8], dump: Dump, r: usize) {
    if !is_shown(dump, r) {
        return;
    }
    let place = row_place(dump, r);
    let n = row_length(dump, r);
    if 0 < r {
        out.byte(b',');
    }
    out.text(b"{\"place\":");
    out.number(place);
    out.text(b",\"bytes\":\"");
    out.text_as(How::Pairs, part(file, place, n));
    out.text(b"\",\"marked\":");
    put_marked(out, dump, place, n);
    out.byte(b'}');
}

pub fn put_dump(out: &mut Out, file: &[u8], dump: Dump) {
    let rows = rows_of(dump);
    out.byte(b'[');
    for r in 0..rows {
        put_row(out, file, dump, r);
    }
    out.byte(b']');
}
