// A line of a script is answered by the verb that it begins with. `room` and `name` are for its BYTES and its NAME or AFTER.
#![tactic(auto)]

use calls_groups::{groups, news};
use calls_reads::{asks, checks, finds};
use calls_writes::{alone, edits};
use script_asked::Verb;
use script_text::print::Printed;
use script_words::bytes::Room;
use script_words::word::Words;

// A verb takes all its words before it prints, so that nothing is printed where this is None: the line breaks the script's grammar.
fn answer(line: &[u8], room: &mut Room, name: &mut Room, out: &mut Printed) -> Option<()> {
    let mut words = Words::of(line);
    let verb = Verb::of(words.word()?)?;
    let words = &mut words;
    match verb {
        Verb::Find => finds::find(words, room, out),
        Verb::Body => finds::body(words, room, out),
        Verb::Part => finds::part(words, room, name, out),
        Verb::Plays => asks::plays(words, room, name, out),
        Verb::Where => finds::place(words, room, out),
        Verb::Salvage => calls_lists::salvage(words, room, out),
        Verb::Channel => finds::channel(words, room, out),
        Verb::Voice => asks::voice(words, room, out),
        Verb::Checked => checks::bodies(words, room, name, out),
        Verb::CheckedFile => checks::files(words, room, name, out),
        Verb::Section => finds::section(words, room, out),
        Verb::Entry => finds::entry(words, room, out),
        Verb::Site => finds::site(words, room, out),
        Verb::Group => groups::group(words, room, out),
        Verb::Place => alone::place(words, out),
        Verb::Screen => alone::screen(words, out),
        Verb::Write => news::write(words, room, out),
        Verb::Edit => edits::body(words, room, out),
        Verb::EditFile => edits::file(words, room, name, out),
    }
}

// Prints the answer to a line.
pub fn answer_line(line: &[u8], room: &mut Room, name: &mut Room, out: &mut Printed) {
    if answer(line, room, name, out).is_none() {
        out.bad();
    }
}
