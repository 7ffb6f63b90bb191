// The sets of a record: the second edition has three; the one of the first stands as the low notes'.
ghost use Rattle.std.specs.Prelude.{◌<◌};

use tool_words::{fields, names};

#[derive(Clone, Copy, PartialEq, Eq)]
pub enum Set {
    Low,
    Middle,
    High,
}

pub const SETS: [Set; 3] = [Set::Low, Set::Middle, Set::High];

impl Set {
    pub fn name(self) -> &'static [u8] {
        match self {
            Set::Low => names::set(0),
            Set::Middle => names::set(1),
            Set::High => names::set(2),
        }
    }

    // What stands behind the set's name and a dot.
    pub fn behind<'a>(self, given: &'a [u8]) -> Option<&'a [u8]> {
        given.strip_prefix(self.name())?.strip_prefix(b".")
    }

    // Where it begins in a record of an edition.
    pub fn place(self, is_second: bool) -> usize
        ensures { result < 64 }
    {
        if !is_second {
            return fields::SET;
        }
        match self {
            Set::Low => fields::SETS,
            Set::Middle => fields::SETS + 6,
            Set::High => fields::SETS + 12,
        }
    }
}
