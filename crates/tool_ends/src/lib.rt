// How the tool begins and ends: what it is run on, its arguments, descriptors that are free are taken, and the exit status, which goes to descriptor 3 too where `run` asks for it.
#![tactic(auto)]

pub mod argument;
pub mod status;

pub use argument::{Argument, arg_count, has_argument, is_word};
pub use status::{Cannot, Status};
use std::fs::{File, OpenOptions, open};
use std::io::{IsTerminal, Write};
use std::os::fd::{AsRawFd, IntoRawFd};
use std::rt::{Env, Files};
use tool_out::shown::How;
use tool_out::{Out, To};

// What the tool asks of the system: files, arguments, standard output and error, and memory.
pub trait Host: Files + Env + Print + Eprint + AllocGlobal {
    // Whether standard error is a terminal.
    fn is_watched(&self) -> bool;
}

impl Host for HostRuntime {
    fn is_watched(&self) -> bool {
        self.stderr().is_terminal()
    }
}

// The last of the descriptors that a program is started with.
const STANDARD_ERROR: i32 = 2;

// Takes the lowest free descriptor where that is one of the first three, open on nothing and for reading only, so that no file that is opened later gets it. Whether there was one.
fn is_taken(rt: &impl Files<File = File>) -> bool {
    match open(rt, "/dev/null") {
        Ok(file) => {
            if STANDARD_ERROR < file.as_raw_fd() {
                return false;
            }
            let _ = file.into_raw_fd();
            true
        }
        Err(_) => false,
    }
}

// A tool that is started with one of the first three closed then writes nothing of its own into a file.
pub fn take_descriptors(rt: &impl Files<File = File>) {
    for _ in 0..3 {
        if !is_taken(rt) {
            return;
        }
    }
}

// Tells the status. Descriptor 3 may be anybody's, so this is for a tool whose first argument asks for it.
pub fn tell(rt: &impl Files, status: Status) {
    let opened = OpenOptions::new().write(true).open(rt, "/dev/fd/3");
    if let Ok(mut file) = opened {
        let _ = file.write_all(status.line());
    }
}

// A line on standard error: the command, where it is one, and what is wrong.
pub fn complain<R: Eprint + Print + AllocGlobal>(rt: &R, command: &[u8], wrong: &[u8]) -> Cannot {
    let mut out = begin(rt, command);
    out.text(wrong);
    end(rt, &mut out);
    Cannot
}

// .. about something that is named, as a file.
pub fn complain_of<R: Eprint + Print + AllocGlobal>(
    rt: &R,
    command: &[u8],
    what: &[u8],
    wrong: &[u8],
) -> Cannot {
    let mut out = begin(rt, command);
    out.text_as(How::Shown, what);
    out.text(b": ");
    out.text(wrong);
    end(rt, &mut out);
    Cannot
}

// A line on standard error that is begun: `casm: ` or `casm report: `.
pub fn begin(rt: &impl AllocGlobal, command: &[u8]) -> Out {
    let mut out = Out::new(rt.alloc(), To::Errors);
    out.text(b"casm");
    if 0 < command.len() {
        out.text(b" ");
        out.text(command);
    }
    out.text(b": ");
    out
}

// .. and ended.
pub fn end<R: Print + Eprint>(rt: &R, out: &mut Out) {
    out.end_line();
    out.flush(rt);
}

// A word of the caller's in quotes.
pub fn quoted(out: &mut Out, what: &[u8]) {
    out.text(b"\"");
    out.text_as(How::Shown, what);
    out.text(b"\"");
}
