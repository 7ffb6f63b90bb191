// Bytes in hex: in rows of 16, and for a narrow window in rows of eight.
use tool_dump::{Dump, put_dump};
use tool_out::Out;
use tool_out::shown::How;

fn put_rows(out: &mut Out, name: &[u8], file: &[u8], dump: Dump, across: usize, is_counted: bool) {
    out.text(b"<pre class=\"");
    out.text(name);
    out.text(
        b"\" tabindex=\"0\" aria-label=\"Bytes in hexadecimal; the byte in brackets is the place of the refusal\">",
    );
    put_dump(out, How::Html, file, dump, across, is_counted);
    out.text(b"</pre>");
}

pub fn put_bytes(out: &mut Out, file: &[u8], dump: Dump, is_counted: bool) {
    put_rows(out, b"wide", file, dump, 16, is_counted);
    put_rows(out, b"narrow", file, dump, 8, is_counted);
}
