// What a command is asked: its options and its files, and a named file read or complained of.
#![tactic(auto)]

pub mod body;

use tool_ends::{Argument, Cannot, Host, begin, complain_of, end, has_argument, quoted};
use tool_files::{FILE, read_file};

// How an answer is written.
#[derive(Clone, Copy, PartialEq, Eq)]
pub enum Form {
    Words,
    Json,
}

// The arguments of a command: the form that is asked for, how many are no options, the first of these, and the first option that is not known.
#[derive(Clone, Copy)]
pub struct Asked {
    pub form: Form,
    pub words: usize,
    pub first: Option<usize>,
    pub unknown: Option<usize>,
}

// What an argument is.
#[derive(Clone, Copy, PartialEq, Eq)]
enum Kind {
    Word,
    AsJson,
    Unknown,
}

fn kind_of(rt: &impl Host, i: usize) -> Kind {
    let given = Argument::at(rt, i);
    match given.text() {
        b"--json" => Kind::AsJson,
        [b'-', b'-', ..] => Kind::Unknown,
        _ => Kind::Word,
    }
}

// The arguments from number `from` on.
pub fn asked_from(rt: &impl Host, from: usize) -> Asked {
    let mut asked = Asked {
        form: Form::Words,
        words: 0,
        first: None,
        unknown: None,
    };
    for i in from..tool_ends::arg_count(rt) {
        match kind_of(rt, i) {
            Kind::Word => {
                asked.words = asked.words.saturating_add(1);
                asked.first = asked.first.or(Some(i));
            }
            Kind::AsJson => asked.form = Form::Json,
            Kind::Unknown => asked.unknown = asked.unknown.or(Some(i)),
        }
    }
    asked
}

// Whether argument i is no option.
pub fn is_name(rt: &impl Host, i: usize) -> bool {
    kind_of(rt, i) == Kind::Word
}

// The first argument behind number i that is no option, or one that is missing.
pub fn next_name(rt: &impl Host, i: usize) -> usize {
    for k in i.saturating_add(1)..usize::MAX {
        if !has_argument(rt, k) || is_name(rt, k) {
            return k;
        }
    }
    usize::MAX
}

// An option that a command does not have.
pub fn complain_option(rt: &impl Host, command: &[u8], i: usize, expected: &[u8]) -> Cannot {
    let given = Argument::at(rt, i);
    let mut out = begin(rt, command);
    out.text(b"no option ");
    quoted(&mut out, given.text());
    out.text(b"; expected ");
    out.text(expected);
    end(rt, &mut out);
    Cannot
}

// Reads the file that a path names, or says why not: how many bytes it has.
pub fn read(rt: &impl Host, path: &[u8], bytes: &mut [u8; FILE]) -> Result<usize, Cannot> {
    match read_file(rt, path, bytes) {
        Ok(length) => Ok(length),
        Err(why) => Err(complain_of(rt, b"", path, why.words())),
    }
}
