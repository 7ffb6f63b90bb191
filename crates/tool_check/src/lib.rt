// `casm check FILE..`: a line a file, and how many there are of each kind.
#![tactic(auto)]

pub mod line;

use line::{put_json_line, put_line};
use tool_asked::{Asked, Form, next_name};
use tool_ends::{Argument, Host, Status};
use tool_files::{FILE, contents, read_file};
use tool_look::list::List;
use tool_look::{Verdict, look};
use tool_out::{Out, To};

// What a file was: the verdicts of `tool_look`, and one that was not read.
const KINDS: usize = 5;

const ALL: [Option<Verdict>; KINDS] = [
    Some(Verdict::Sound),
    Some(Verdict::Damaged),
    Some(Verdict::NoCasm),
    Some(Verdict::NoStyle),
    None,
];

// Where a kind stands among them.
fn place_of(kind: Option<Verdict>) -> usize {
    match kind {
        Some(Verdict::Sound) => 0,
        Some(Verdict::Damaged) => 1,
        Some(Verdict::NoCasm) => 2,
        Some(Verdict::NoStyle) => 3,
        None => 4,
    }
}

// Checks the file that a path names, and says in a line what it is.
fn check_path(
    rt: &impl Host,
    out: &mut Out,
    path: &[u8],
    form: Form,
    bytes: &mut [u8; FILE],
    list: &mut List,
) -> Option<Verdict> {
    let length = match read_file(rt, path, bytes) {
        Ok(length) => length,
        Err(why) => {
            line::put_unread(out, path, form, why);
            return None;
        }
    };
    let file = contents(bytes, length);
    let seen = look(file, list);
    match form {
        Form::Words => put_line(out, path, file, list, seen),
        Form::Json => put_json_line(out, path, file, list, seen),
    }
    Some(seen.verdict)
}

fn check_argument(
    rt: &impl Host,
    out: &mut Out,
    i: usize,
    form: Form,
    bytes: &mut [u8; FILE],
    list: &mut List,
) -> Option<Verdict> {
    let path = Argument::at(rt, i);
    check_path(rt, out, path.text(), form, bytes, list)
}

fn count_one(counts: &mut [usize; KINDS], kind: Option<Verdict>) {
    let k = place_of(kind);
    if k < KINDS {
        counts[k] = counts[k].saturating_add(1);
    }
}

// How far it has come, on standard error where that is a terminal, one line over the other.
fn put_progress(rt: &impl Host, done: usize, all: usize) {
    let mut out = Out::new(rt.alloc(), To::Errors);
    out.text(b"\rchecked ");
    out.grouped(done);
    out.text(b" of ");
    out.grouped(all);
    out.flush(rt);
}

fn clear_progress(rt: &impl Host) {
    let mut out = Out::new(rt.alloc(), To::Errors);
    out.text(b"\r                                        \r");
    out.flush(rt);
}

fn is_watched(rt: &impl Host, all: usize) -> bool {
    if all <= 50 {
        return false;
    }
    rt.is_watched()
}

fn check_all(
    rt: &impl Host,
    out: &mut Out,
    asked: Asked,
    first: usize,
    bytes: &mut [u8; FILE],
    list: &mut List,
    counts: &mut [usize; KINDS],
) {
    let is_watched = is_watched(rt, asked.words);
    let mut i = first;
    for done in 0..asked.words {
        let kind = check_argument(rt, out, i, asked.form, bytes, list);
        count_one(counts, kind);
        out.flush_block(rt);
        if is_watched && (asked.words - done) % 50 == 0 {
            put_progress(rt, done, asked.words);
        }
        i = next_name(rt, i);
    }
    if is_watched {
        clear_progress(rt);
    }
}

fn status_of(counts: &[usize; KINDS]) -> Status {
    if counts[4] != 0 {
        return Status::Cannot;
    }
    if counts[1] != 0 || counts[2] != 0 || counts[3] != 0 {
        return Status::No;
    }
    Status::Done
}

// How many files there are of a kind, behind those before it.
fn put_kind(out: &mut Out, counts: &[usize; KINDS], k: usize, form: Form) {
    if KINDS <= k {
        return;
    }
    let words = line::kind_words(ALL[k]);
    if form == Form::Json {
        out.text(b",\"");
        out.text(words);
        out.text(b"\":");
        out.number(counts[k]);
        return;
    }
    if 0 < k {
        out.byte(b',');
    }
    out.byte(b' ');
    out.number(counts[k]);
    out.byte(b' ');
    out.text(words);
}

fn put_kinds(out: &mut Out, counts: &[usize; KINDS], form: Form) {
    for k in 0..KINDS {
        put_kind(out, counts, k, form);
    }
}

// The last line.
fn put_counts(out: &mut Out, counts: &[usize; KINDS], asked: Asked) {
    if asked.form == Form::Json {
        out.text(b"{\"files\":");
        out.number(asked.words);
        put_kinds(out, counts, Form::Json);
        out.text(b"}\n");
        return;
    }
    out.count(asked.words, b"file", b"files");
    out.byte(b':');
    put_kinds(out, counts, Form::Words);
    out.text(b"\n");
}

// `casm check FILE..`, the files from argument `first` on.
pub fn check(rt: &impl Host, out: &mut Out, asked: Asked, first: usize) -> Status {
    let mut bytes = tool_files::room();
    let mut list = List::new();
    let mut counts = [0usize; KINDS];
    check_all(rt, out, asked, first, &mut bytes, &mut list, &mut counts);
    put_counts(out, &counts, asked);
    status_of(&counts)
}
