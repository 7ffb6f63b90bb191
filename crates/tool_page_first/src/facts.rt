// A list of names and values.
use tool_out::Out;
use tool_rows::row::Row;
use tool_words::{put_notes, put_source};

// Before the value of a name.
pub fn begin_fact(out: &mut Out, name: &[u8]) {
    out.text(b"<div><dt>");
    out.text(name);
    out.text(b"</dt> <dd>");
}

pub fn end_fact(out: &mut Out) {
    out.text(b"</dd></div>");
}

pub fn put_source_chord(out: &mut Out, row: &Row) {
    begin_fact(out, b"source chord");
    put_source(out, row.byte(18), row.byte(19));
    end_fact(out);
}

// The middle range of a record of the second edition.
pub fn put_middle_notes(out: &mut Out, row: &Row) {
    begin_fact(out, b"middle notes");
    put_notes(out, row.byte(20), row.byte(21));
    end_fact(out);
}

// Its bytes that are not explained.
pub fn put_unexplained(out: &mut Out, row: &Row) {
    begin_fact(out, b"bytes 40-46");
    for i in 40..47 {
        if 40 < i {
            out.byte(b' ');
        }
        out.pair(row.byte(i));
    }
    end_fact(out);
}
