// Names and values of an object's fields, each behind a comma.
use tool_out::Out;
use tool_out::shown::How;

// `,"name":`
pub fn put_name(out: &mut Out, name: &[u8]) {
    out.text(b",\"");
    out.text(name);
    out.text(b"\":");
}

pub fn put_number(out: &mut Out, name: &[u8], n: usize) {
    put_name(out, name);
    out.number(n);
}

// The words that a writer in memory holds.
pub fn put_words(out: &mut Out, name: &[u8], words: &Out) {
    put_name(out, name);
    out.byte(b'"');
    out.text_as(How::Json, words.held());
    out.byte(b'"');
}

pub fn put_flag(out: &mut Out, name: &[u8], is_so: bool) {
    put_name(out, name);
    if is_so {
        out.text(b"true");
        return;
    }
    out.text(b"false");
}

pub fn put_null(out: &mut Out, name: &[u8]) {
    put_name(out, name);
    out.text(b"null");
}
