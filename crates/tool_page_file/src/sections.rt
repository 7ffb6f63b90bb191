// The sections of a file, one by one, as far as they can be followed.
use tool_bytes::part;
use tool_look::Seen;
use tool_out::Out;
use tool_out::shown::How;
use tool_parts::{next_section, section_length, sections_end};

// A line of the table; the CASM section's stands out.
fn put_section(out: &mut Out, tag: &[u8], at: usize, length: usize, is_here: bool) {
    out.text(b"<tr");
    if is_here {
        out.text(b" class=\"here\"");
    }
    out.text(b"><td>");
    out.text_as(How::Html, tag);
    out.text(b"</td><td>");
    out.number(at);
    out.text(b"</td><td>");
    out.hex(at);
    out.text(b"</td><td>");
    out.number(length);
    out.text(b"</td></tr>");
}

fn put_sections(out: &mut Out, file: &[u8], seen: Seen) {
    let end = sections_end(file, seen);
    let mut at: usize = 0;
    for _ in 0..file.len() {
        if end <= at {
            return;
        }
        put_section(
            out,
            part(file, at, 4),
            at,
            section_length(file, at),
            seen.is_at(at),
        );
        at = next_section(file, at);
    }
}

// The card with the sections and the place of the body.
pub fn put_file(out: &mut Out, file: &[u8], seen: Seen) {
    out.text(b"<section class=\"card\" aria-labelledby=\"file\"><h2 id=\"file\">The file: ");
    out.count(file.len(), b"byte", b"bytes");
    out.text(
        b"</h2><table class=\"plain\"><thead><tr><th scope=\"col\">Section</th><th scope=\"col\">Place</th><th scope=\"col\">Hex</th><th scope=\"col\">Length</th></tr></thead><tbody>",
    );
    put_sections(out, file, seen);
    out.text(b"</tbody></table>");
    if seen.found.is_some() {
        out.text(b"<p class=\"small\" style=\"margin-top:8px\">The CASM body stands at ");
        out.place(seen.body_place());
        out.text(b".</p>");
    }
    out.text(b"</section></div>\n");
}
