// `casm plays --json`: who plays under a chord, and how many under each, as one object.
#![tactic(auto)]

pub mod matrix;

use casm::read::find_part;
pub use matrix::matrix_json;
use tool_out::Out;
use tool_out::shown::How;
use tool_rows::row::Row;
use tool_rows::{Rows, read_rows};
use tool_who::{MARKS, is_marked, mark_playing, no_marks};
use tool_words::{put_chord, put_destination_name, put_root, put_voice};

// What stands between two of a list.
pub(crate) fn part_from(out: &mut Out, before: usize) {
    if 0 < before {
        out.text(b",");
    }
}

// The file and the part, behind the opening brace.
pub(crate) fn put_file(out: &mut Out, file: &[u8], name: &[u8]) {
    out.text(b"{\"file\":\"");
    out.text_as(How::Json, file);
    out.text(b"\",\"part\":\"");
    out.text_as(How::Json, name);
    out.text(b"\"");
}

// The channel of a row.
fn put_channel(out: &mut Out, row: &Row) {
    let to = row.byte(9);
    out.text(b"{\"channel\":");
    out.number(row.channel());
    out.text(b",\"voice\":\"");
    put_voice(out, How::Json, row.voice());
    out.text(b"\",\"destination\":");
    out.number((to as usize).saturating_add(1));
    out.text(b",\"destination_name\":\"");
    put_destination_name(out, to);
    out.text(b"\"}");
}

fn put_playing(out: &mut Out, rows: &Rows, marks: &[bool; MARKS]) {
    let mut before: usize = 0;
    for row in rows.held() {
        if is_marked(marks, row) {
            part_from(out, before);
            put_channel(out, row);
            before = before.saturating_add(1);
        }
    }
}

// Who plays in a part under a chord. The part is one of the body's.
pub fn plays_json(out: &mut Out, file: &[u8], body: &[u8], name: &[u8], root: u8, kind: u8) {
    let named = find_part(body, name);
    let rows = read_rows(body, named.group);
    let mut marks = no_marks();
    mark_playing(&mut marks, body, name, root, kind);
    put_file(out, file, name);
    out.text(b",\"root\":\"");
    put_root(out, root);
    out.text(b"\",\"type\":\"");
    put_chord(out, kind);
    out.text(b"\",\"channels\":");
    out.number(rows.count());
    out.text(b",\"plays\":[");
    put_playing(out, &rows, &marks);
    out.text(b"]}");
    out.end_line();
}
