// The fields of a record as an edit names them, and where their bytes stand.
#![tactic(auto)]

pub mod set;

pub use set::Set;
use tool_out::Out;
use tool_value::Kind;
use tool_words::names;

// The fields in the order of their names: ten, and the six of a set.
#[derive(Clone, Copy, PartialEq, Eq)]
pub enum Field {
    Voice,
    To,
    Lock,
    Roots,
    ChordTypes,
    AutoStart,
    SourceRoot,
    SourceChord,
    MiddleLow,
    MiddleHigh,
    Rule,
    Table,
    HighKey,
    LowLimit,
    HighLimit,
    Retrigger,
}

pub const FIELDS: [Field; 16] = [
    Field::Voice,
    Field::To,
    Field::Lock,
    Field::Roots,
    Field::ChordTypes,
    Field::AutoStart,
    Field::SourceRoot,
    Field::SourceChord,
    Field::MiddleLow,
    Field::MiddleHigh,
    Field::Rule,
    Field::Table,
    Field::HighKey,
    Field::LowLimit,
    Field::HighLimit,
    Field::Retrigger,
];

impl Field {
    fn name(self) -> &'static [u8] {
        match self {
            Field::Voice => b"voice",
            Field::To => b"to",
            Field::Lock => b"lock",
            Field::Roots => b"roots",
            Field::ChordTypes => b"chord-types",
            Field::AutoStart => b"auto-start",
            Field::SourceRoot => b"source-root",
            Field::SourceChord => b"source-chord",
            Field::MiddleLow => b"middle-low",
            Field::MiddleHigh => b"middle-high",
            Field::Rule => b"rule",
            Field::Table => b"table",
            Field::HighKey => b"high-key",
            Field::LowLimit => b"low-limit",
            Field::HighLimit => b"high-limit",
            Field::Retrigger => b"retrigger",
        }
    }

    // Whether each set has one of its own.
    pub fn is_of_set(self) -> bool {
        match self {
            Field::Rule
            | Field::Table
            | Field::HighKey
            | Field::LowLimit
            | Field::HighLimit
            | Field::Retrigger => true,
            _ => false,
        }
    }

    // Whether only the second edition has it.
    pub fn is_second_only(self) -> bool {
        match self {
            Field::MiddleLow | Field::MiddleHigh => true,
            _ => false,
        }
    }

    // Where its bytes begin in a record, of a set where each has its own.
    pub fn place(self, is_second: bool, set: Set) -> usize {
        match self {
            Field::Voice => 1,
            Field::To => 9,
            Field::Lock => 10,
            Field::Roots => 11,
            Field::ChordTypes | Field::AutoStart => 13,
            Field::SourceRoot => 18,
            Field::SourceChord => 19,
            Field::MiddleLow => 20,
            Field::MiddleHigh => 21,
            Field::Rule => set.place(is_second),
            Field::Table => set.place(is_second) + 1,
            Field::HighKey => set.place(is_second) + 2,
            Field::LowLimit => set.place(is_second) + 3,
            Field::HighLimit => set.place(is_second) + 4,
            Field::Retrigger => set.place(is_second) + 5,
        }
    }

    // How many they are.
    pub fn size(self) -> usize {
        match self {
            Field::Voice => 8,
            Field::Roots => 2,
            Field::ChordTypes => 5,
            _ => 1,
        }
    }

    // The kind of its values, in a set with this rule.
    pub fn kind(self, is_second: bool, rule: u8) -> Kind {
        match self {
            Field::Voice => Kind::Voice,
            Field::To => Kind::Destination,
            Field::Lock | Field::AutoStart => Kind::Switch,
            Field::Roots => Kind::Roots,
            Field::ChordTypes => Kind::Chords,
            Field::SourceRoot | Field::HighKey => Kind::Root,
            Field::SourceChord => Kind::Chord,
            Field::MiddleLow | Field::MiddleHigh | Field::LowLimit | Field::HighLimit => Kind::Note,
            Field::Rule if is_second => Kind::Rule,
            Field::Rule => Kind::FirstRule,
            Field::Table if !is_second => Kind::FirstTable,
            Field::Table if rule == names::GUITAR => Kind::GuitarTable,
            Field::Table => Kind::Table,
            Field::Retrigger => Kind::Retrigger,
        }
    }

    // What it is called, with its set before it where it is of one of three.
    pub fn put_called(self, out: &mut Out, set: Option<Set>) {
        if let Some(set) = self.own(set) {
            out.text(set.name());
            out.byte(b'.');
        }
        out.text(self.name());
    }

    // The same for a table: `high key`, `low: high key`.
    pub fn put_label(self, out: &mut Out, set: Option<Set>) {
        if let Some(set) = self.own(set) {
            out.text(set.name());
            out.text(b": ");
        }
        put_spaced(out, self.name());
    }

    // The set that it is of, where each has its own.
    fn own(self, set: Option<Set>) -> Option<Set> {
        set.filter(|_| self.is_of_set())
    }
}

// A field that is named, and of which set; where none is named, of all of them.
#[derive(Clone, Copy)]
pub struct Named {
    pub field: Field,
    pub set: Option<Set>,
}

impl Named {
    // Whether only the second edition has it.
    pub fn is_second_only(self) -> bool {
        self.set.is_some() || self.field.is_second_only()
    }
}

// Why a name is no field: there is none, or it is one that an edit does not reach.
#[derive(Clone, Copy)]
pub enum NoField {
    Unknown,
    SecondTable,
}

// The field that is called so.
fn called(given: &[u8]) -> Result<Field, NoField> {
    for field in FIELDS {
        if field.name() == given {
            return Ok(field);
        }
    }
    Err(NoField::Unknown)
}

// The field of a set that is called so.
fn in_set(set: Set, given: &[u8]) -> Result<Named, NoField> {
    let field = called(given)?;
    if !field.is_of_set() {
        return Err(NoField::Unknown);
    }
    Ok(Named {
        field,
        set: Some(set),
    })
}

// The field that a name means.
pub fn parse_field(given: &[u8]) -> Result<Named, NoField> {
    if let b"second-table" = given {
        return Err(NoField::SecondTable);
    }
    for set in set::SETS {
        if let Some(name) = set.behind(given) {
            return in_set(set, name);
        }
    }
    Ok(Named {
        field: called(given)?,
        set: None,
    })
}

fn put_spaced(out: &mut Out, name: &[u8]) {
    for b in name {
        if *b == b'-' {
            out.byte(b' ');
        } else {
            out.byte(*b);
        }
    }
}

// The fields that a record of an edition has.
pub fn put_fields(out: &mut Out, is_second: bool) {
    out.text(Field::Voice.name());
    for field in FIELDS {
        if field != Field::Voice && (is_second || !field.is_second_only()) {
            out.text(b", ");
            out.text(field.name());
        }
    }
    if is_second {
        out.text(b" (the last six also with low., middle. or high. before them)");
    }
}
