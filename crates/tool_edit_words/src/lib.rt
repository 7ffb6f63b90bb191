// The arguments of `casm edit`: the file, the part, the channel, the fields with their values, and the options.
#![tactic(auto)]

pub mod fields;

use tool_ends::{Argument, Cannot, Host, complain};

// Which argument is which, and how many are no options.
#[derive(Clone, Copy)]
pub struct Asked {
    pub file: Option<usize>,
    pub part: Option<usize>,
    pub channel: Option<usize>,
    pub target: Option<usize>,
    pub words: usize,
    pub is_override: bool,
    pub is_in_place: bool,
    pub unknown: Option<usize>,
    pub is_twice: bool,
    // Whether the next one is what stands behind -o.
    pub is_target_next: bool,
}

fn nothing() -> Asked {
    Asked {
        file: None,
        part: None,
        channel: None,
        target: None,
        words: 0,
        is_override: false,
        is_in_place: false,
        unknown: None,
        is_twice: false,
        is_target_next: false,
    }
}

// What an argument is.
#[derive(Clone, Copy, PartialEq, Eq)]
enum Kind {
    Word,
    Target,
    Override,
    InPlace,
    Unknown,
}

fn kind_of(rt: &impl Host, i: usize) -> Kind {
    let given = Argument::at(rt, i);
    match given.text() {
        b"-o" => Kind::Target,
        b"--override" => Kind::Override,
        b"--in-place" => Kind::InPlace,
        [b'-', ..] => Kind::Unknown,
        _ => Kind::Word,
    }
}

impl Asked {
    fn take_word(&mut self, i: usize) {
        match self.words {
            0 => self.file = Some(i),
            1 => self.part = Some(i),
            2 => self.channel = Some(i),
            _ => {}
        }
        self.words = self.words.saturating_add(1);
    }

    fn take(&mut self, rt: &impl Host, i: usize) {
        if self.is_target_next {
            self.target = Some(i);
            self.is_target_next = false;
            return;
        }
        match kind_of(rt, i) {
            Kind::Word => self.take_word(i),
            Kind::Target => {
                self.is_twice = self.is_twice || self.target.is_some();
                self.is_target_next = true;
            }
            Kind::Override => self.is_override = true,
            Kind::InPlace => self.is_in_place = true,
            Kind::Unknown => self.unknown = self.unknown.or(Some(i)),
        }
    }

    // Whether a field is asked for.
    pub fn has_fields(&self) -> bool {
        3 < self.words
    }

    // Whether argument i is a field with its value: it stands behind the channel, and is no option.
    pub fn is_field(&self, rt: &impl Host, i: usize) -> bool {
        match self.channel {
            Some(channel) => channel < i && self.target != Some(i) && kind_of(rt, i) == Kind::Word,
            None => false,
        }
    }
}

// The arguments from number `from` on.
pub fn asked_from(rt: &impl Host, from: usize) -> Asked {
    let mut asked = nothing();
    for i in from..tool_ends::arg_count(rt) {
        asked.take(rt, i);
    }
    asked
}

// The file, and what is missing or too much; a part and a channel that are missing are told of where the file is known.
pub fn file_asked(rt: &impl Host, asked: &Asked) -> Result<usize, Cannot> {
    if let Some(i) = asked.unknown {
        return Err(tool_asked::complain_option(
            rt,
            b"edit",
            i,
            b"-o OUT, --override or --in-place",
        ));
    }
    let Some(file) = asked.file else {
        return Err(complain(
            rt,
            b"edit",
            b"no FILE; expected casm edit FILE PART CHANNEL FIELD=VALUE.. -o OUT",
        ));
    };
    if asked.is_twice {
        return Err(complain(rt, b"edit", b"-o is said twice; expected one OUT"));
    }
    if asked.is_target_next {
        return Err(complain(rt, b"edit", b"no OUT behind -o"));
    }
    if asked.target.is_none() && !asked.is_in_place {
        return Err(complain(
            rt,
            b"edit",
            b"no OUT; expected -o OUT, or --in-place to change FILE itself",
        ));
    }
    Ok(file)
}
