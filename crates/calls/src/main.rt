// Reads a script on standard input and prints one answer line for each line of it. A line is taken apart, one call of the library is
// made, and what came back is printed; no rule of the format stands here.
#![tactic(auto)]

use calls_lines::answer_line;
use script_lines::{Lines, Step};
use script_text::print::Printed;
use script_words::bytes;
use script_words::bytes::Room;
use std::io::Read;

// A proved loop has to end, and nothing says that a script does. So the loop counts its turns, up to a number that no run reaches.
fn answer_all<R: Read>(reader: &mut Lines<R>, room: &mut Room, name: &mut Room, out: &mut Printed) {
    for _ in 0..u64::MAX {
        match reader.next() {
            Step::More => {},
            Step::Line(line) => answer_line(line, room, name, out),
            // A line that is too long breaks the grammar.
            Step::Overlong => out.bad(),
            Step::Done => break,
        }
    }
    out.flush();
}

fn main(rt: HostRuntime) {
    let mut reader = Lines::new(rt.stdin());
    let mut room = bytes::room();
    let mut name = bytes::room();
    let mut out = Printed::new(rt.stdout());
    answer_all(&mut reader, &mut room, &mut name, &mut out);
}
