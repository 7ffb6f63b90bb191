// Prints the salvage list of a style file's CASM body (document 01, "Marked examples": the program `list`): reads standard input, and writes the text that `list_text` makes of it.
#![tactic(auto)]

ghost use Rattle.std.specs.Prelude.{◌≤◌, length};

use list_text::{TEXT, list_file};
use std::io::Read;

// A file of at most 65,536 bytes; one byte more shows that there is more.
const FILE: usize = 65537;

fn file() -> [u8; FILE] {
    [0; FILE]
}

fn text() -> [u8; TEXT] {
    [0; TEXT]
}

// Reads until the room is full, the input ends or a read fails, and answers how many bytes came. No `for`: each turn goes on by as much as came.
fn read_full<R: Read>(input: &mut R, room: &mut [u8]) -> usize
    ensures { result ≤ length room.old }
{
    let mut done = 0;
    while done < room.len() {
        let count = input.read(&mut room[done..]).unwrap_or(0);
        if count == 0 {
            break;
        }
        done += count;
    }
    done
}

fn main(rt: HostRuntime) {
    let mut bytes = file();
    let mut out = text();
    let count = read_full(&mut rt.stdin(), &mut bytes);
    let used = list_file(&bytes[..count], &mut out);
    let _ = rt.write_all(&out[..used]);
}
