// The verbs of a script.
#![tactic(auto)]

#[derive(Clone, Copy)]
pub enum Verb {
    Find,
    Body,
    Part,
    Plays,
    Where,
    Salvage,
    Channel,
    Voice,
    Checked,
    CheckedFile,
    Section,
    Entry,
    Site,
    Group,
    Place,
    Screen,
    Write,
    Edit,
    EditFile,
}

impl Verb {
    // The verb that a word is.
    pub fn of(word: &[u8]) -> Option<Verb> {
        match word {
            b"find" => Some(Verb::Find),
            b"body" => Some(Verb::Body),
            b"part" => Some(Verb::Part),
            b"plays" => Some(Verb::Plays),
            b"where" => Some(Verb::Where),
            b"salvage" => Some(Verb::Salvage),
            b"channel" => Some(Verb::Channel),
            b"voice" => Some(Verb::Voice),
            b"checked" => Some(Verb::Checked),
            b"checkedfile" => Some(Verb::CheckedFile),
            b"section" => Some(Verb::Section),
            b"entry" => Some(Verb::Entry),
            b"site" => Some(Verb::Site),
            b"group" => Some(Verb::Group),
            b"place" => Some(Verb::Place),
            b"screen" => Some(Verb::Screen),
            b"write" => Some(Verb::Write),
            b"edit" => Some(Verb::Edit),
            b"editfile" => Some(Verb::EditFile),
            _ => None,
        }
    }
}
