// `casm note`: where a note of a channel is placed under a chord, and what of its record places it.
#![tactic(auto)]

use casm::questions::place_note;
use casm::read::{find_channel, find_part};
use casm_by_value::read_with_room;
use layout::answer::Placed;
use layout::record::{Record, SourceChannel};
use layout::refusal::ROOT_FIXED;
use tool_chord::put_name;
use tool_ends::{Cannot, Host, Status, begin, complain, end};
use tool_out::Out;
use tool_out::shown::How;
use tool_placing::put_facts;
use tool_rows::row::Row;
use tool_rows::{Rows, blank_table, read_rows};
use tool_who::{is_marked, mark_playing, no_marks, put_why};
use tool_words::reasons::Reason;
use tool_words::{put_note, put_voice_or_none};

// The record of a group that has this number among its channels.
fn record_at(body: &[u8], group: usize, k: usize) -> Record {
    let filled = read_with_room(body, group, blank_table(), 32);
    let table = filled.table;
    if k < 32 {
        return table[k];
    }
    table[0]
}

fn put_numbered(out: &mut Out, note: u8) {
    put_note(out, note);
    out.text(b" (");
    out.number(note as usize);
    out.text(b")");
}

// The part, the channel of a row and the chord.
fn put_where(out: &mut Out, name: &[u8], row: &Row, root: u8, kind: u8) {
    out.text_as(How::Shown, name);
    out.text(b", ch ");
    out.number(row.channel());
    out.text(b" ");
    put_voice_or_none(out, row.voice());
    out.text(b", under ");
    put_name(out, root, kind);
    out.text(b": ");
}

// Where a note is placed, or why it is not.
fn put_placed(out: &mut Out, note: u8, placed: Placed) {
    put_numbered(out, note);
    if placed.number == 0 {
        out.text(b" is placed at ");
        put_numbered(out, placed.note);
        out.end_line();
        return;
    }
    let mut case = Reason::BadNumber;
    if placed.number == ROOT_FIXED {
        case = Reason::NotByRoot;
    }
    out.text(b" is not placed\n  ");
    out.text(case.words());
    out.end_line();
}

// That the channel of a row does not play under the chord, where it does not.
fn put_silent(out: &mut Out, body: &[u8], name: &[u8], row: &Row, root: u8, kind: u8) {
    let mut marks = no_marks();
    mark_playing(&mut marks, body, name, root, kind);
    if is_marked(&marks, row) {
        return;
    }
    out.text(b"  (this channel does not play under ");
    put_name(out, root, kind);
    out.text(b": ");
    put_why(out, row, root, kind);
    out.text(b")\n");
}

// The channels of a group, on one line.
fn put_channels(out: &mut Out, rows: &Rows) {
    for (k, row) in rows.held().iter().enumerate() {
        if 0 < k {
            out.text(b", ");
        }
        out.number(row.channel());
    }
}

// No such channel in the part: those that it has.
fn complain_channel(rt: &impl Host, name: &[u8], rows: &Rows, given: u8) -> Cannot {
    let mut out = begin(rt, b"note");
    out.text(b"no channel ");
    out.number((given as usize).saturating_add(1));
    out.text(b" in ");
    out.text_as(How::Shown, name);
    if rows.count() == 0 {
        out.text(b"; it has no channels");
    } else {
        out.text(b"; its channels are ");
        put_channels(&mut out, rows);
    }
    end(rt, &mut out);
    Cannot
}

fn status_of(placed: Placed) -> Status {
    if placed.number == 0 {
        return Status::Done;
    }
    Status::No
}

// Tells where a note of a source channel of a part is placed under a chord. What the run comes to: the note is placed, or it is not, or there is no such channel.
pub fn note(
    rt: &impl Host,
    out: &mut Out,
    body: &[u8],
    name: &[u8],
    given: u8,
    root: u8,
    kind: u8,
    note: u8,
) -> Result<Status, Cannot> {
    let named = find_part(body, name);
    if named.number != 0 {
        return Err(complain(rt, b"note", Reason::NoPart.words()));
    }
    let rows = read_rows(body, named.group);
    let found = find_channel(body, named.group, SourceChannel(given));
    if found.number != 0 {
        return Err(complain_channel(rt, name, &rows, given));
    }
    let k = found.row;
    let row = rows.at(k);
    let record = record_at(body, named.group, k);
    let placed = place_note(record, root, note);
    put_where(out, name, &row, root, kind);
    put_placed(out, note, placed);
    put_silent(out, body, name, &row, root, kind);
    put_facts(out, &row, note);
    Ok(status_of(placed))
}
