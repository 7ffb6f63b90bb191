// `casm edit`: one channel of a part changed, in a copy of the file or in the file itself.
#![tactic(auto)]

pub mod target;

use casm::bytes::record_of;
use casm::editing::edit_file;
use layout::answer::Answered;
use layout::lock::Override;
use layout::record::{Record, SourceChannel};
use layout::refusal::OUT_OF_RANGE;
use target::{check_target, save_as};
use tool_asked::read;
use tool_bytes::part;
use tool_change::Change;
use tool_change::told::{count_changed, put_changes};
use tool_edit_words::fields::set_fields;
use tool_edit_words::{Asked, asked_from, file_asked};
use tool_ends::{Argument, Cannot, Host, Status, begin, end};
use tool_files::{FILE, contents};
use tool_out::Out;
use tool_out::shown::How;
use tool_reason::range::Chunk;
use tool_reason::{cause_of_file, range};
use tool_rows::row::Row;
use tool_sought::seek;
use tool_words::fields::put_field;
use tool_words::put_voice_or_none;

// The record of the row that is to be. Its Cntt is not looked at.
fn new_record(new: &Row) -> Record {
    record_of(new.edition, new.bytes, None, 0)
}

fn override_of(asked: &Asked) -> Override {
    if asked.is_override {
        return Override::Asked;
    }
    Override::NotAsked
}

// Which row of the ranges a record has.
fn chunk_of(is_second: bool) -> Chunk {
    if is_second {
        return Chunk::Ctb2;
    }
    Chunk::Ctab
}

fn put_chunk(out: &mut Out, is_second: bool) {
    if is_second {
        out.text(b" of a Ctb2), allowed is ");
        return;
    }
    out.text(b" of a Ctab), allowed is ");
}

// The byte k of the new record that is out of its range.
fn put_out_of_range(out: &mut Out, new: &Row, k: usize) {
    let second = new.is_second();
    put_field(out, second, k);
    out.text(b" is ");
    range::put_value(out, new.byte(k) as usize);
    out.text(b" (byte ");
    out.number(k);
    put_chunk(out, second);
    range::put_ranges(out, chunk_of(second), k, new.byte(k.saturating_sub(1)));
}

// Why the edit is refused.
fn complain_edit(rt: &impl Host, new: &Row, file: &[u8], answered: Answered) -> Cannot {
    let cause = cause_of_file(file, answered.number, answered.place);
    let mut out = begin(rt, b"edit");
    out.text(b"refusal ");
    out.number(answered.number as usize);
    out.text(b": ");
    out.text(cause.case.words());
    if answered.number == OUT_OF_RANGE {
        out.text(b": ");
        put_out_of_range(&mut out, new, answered.place);
    }
    end(rt, &mut out);
    Cannot
}

fn refused() -> Answered {
    Answered {
        number: layout::refusal::OVER_LIMIT,
        place: 0,
    }
}

fn edit_slice(
    s: &mut [u8],
    length: usize,
    name: &[u8],
    channel: u8,
    new: Record,
    over: Override,
) -> Answered {
    if s.len() < length {
        return refused();
    }
    edit_file(&mut s[0..length], name, SourceChannel(channel), new, over)
}

// Edits the bytes that were read.
fn edit_bytes(
    bytes: &mut [u8; FILE],
    length: usize,
    name: &[u8],
    channel: u8,
    new: Record,
    over: Override,
) -> Answered {
    let s: &mut [u8] = bytes;
    edit_slice(s, length, name, channel, new, over)
}

// How many bytes of a record there are.
fn size_of(is_second: bool) -> usize {
    if is_second {
        return layout::size::SECOND_RECORD;
    }
    layout::size::HELD
}

// An argument that may be missing, and is empty then.
fn argument(rt: &impl Host, i: Option<usize>) -> Argument {
    Argument::at(rt, i.unwrap_or(usize::MAX))
}

// Finds the channel, and sets what is asked for.
fn prepare(
    rt: &impl Host,
    asked: &Asked,
    path: &[u8],
    name: &[u8],
    file: &[u8],
) -> Result<Change, Cannot> {
    let given = argument(rt, asked.channel);
    let sought = seek(rt, b"edit", path, file, name, given.text())?;
    let record = part(file, sought.at, size_of(sought.is_second));
    let mut change = Change::none(record, sought.is_second);
    set_fields(rt, &mut change.new, asked)?;
    Ok(change)
}

// What changed.
fn put_told(out: &mut Out, name: &[u8], change: &Change) {
    out.text_as(How::Shown, name);
    out.text(b", ch ");
    out.number(change.old.channel());
    out.text(b" ");
    put_voice_or_none(out, change.old.voice());
    out.text(b": ");
    let n = count_changed(change);
    if n == 0 {
        out.text(b"nothing changed\n");
        return;
    }
    out.count(n, b"field changed", b"fields changed");
    out.end_line();
    put_changes(out, change);
}

fn put_written(out: &mut Out, target: &[u8], length: usize) {
    out.text_as(How::Shown, target);
    out.text(b": ");
    out.count(length, b"byte", b"bytes");
    out.text(b" written");
    out.end_line();
}

// The edit itself, and then the saving: nothing is written unless the edit is accepted.
fn edit_ready(
    rt: &impl Host,
    out: &mut Out,
    path: &[u8],
    target: &[u8],
    name: &[u8],
    change: &Change,
    over: Override,
    bytes: &mut [u8; FILE],
    length: usize,
) -> Result<Status, Cannot> {
    let answered = edit_bytes(
        bytes,
        length,
        name,
        change.old.byte(0),
        new_record(&change.new),
        over,
    );
    if answered.number != 0 {
        return Err(complain_edit(rt, &change.new, contents(bytes, length), answered));
    }
    save_as(rt, path, target, contents(bytes, length))?;
    put_told(out, name, change);
    put_written(out, target, length);
    Ok(Status::Done)
}

fn edit_to(
    rt: &impl Host,
    out: &mut Out,
    asked: &Asked,
    path: &[u8],
    target: &[u8],
    name: &[u8],
) -> Result<Status, Cannot> {
    let mut bytes = tool_files::room();
    let length = read(rt, path, &mut bytes)?;
    let change = prepare(rt, asked, path, name, contents(&bytes, length))?;
    check_target(rt, path, target, asked.is_in_place)?;
    edit_ready(
        rt,
        out,
        path,
        target,
        name,
        &change,
        override_of(asked),
        &mut bytes,
        length,
    )
}

// `casm edit FILE PART CHANNEL FIELD=VALUE.. -o OUT`, the arguments from number `first` on. With --in-place the file to write is FILE itself.
pub fn edit(rt: &impl Host, out: &mut Out, first: usize) -> Result<Status, Cannot> {
    let asked = asked_from(rt, first);
    let file = file_asked(rt, &asked)?;
    let path = Argument::at(rt, file);
    let target = Argument::at(rt, asked.target.unwrap_or(file));
    let name = argument(rt, asked.part);
    edit_to(rt, out, &asked, path.text(), target.text(), name.text())
}
