// `casm`: what is asked for is looked up by its word, answered, printed, and its status told.
#![tactic(auto)]

use std::process::ExitCode;
use tool_ends::{
    Argument, Cannot, Host, Status, begin, complain_of, end, is_word, quoted, take_descriptors,
    tell,
};
use tool_help::put_help;
use tool_out::{Out, To};

// No such command.
fn refuse(rt: &impl Host, i: usize) -> Cannot {
    let word = Argument::at(rt, i);
    let mut out = begin(rt, b"");
    out.text(b"no command ");
    quoted(&mut out, word.text());
    out.text(b"; expected report, check, plays, note, edit, verify, page, list or help");
    end(rt, &mut out);
    Cannot
}

// Answers a command that shows a file or several.
fn show(rt: &impl Host, out: &mut Out, i: usize, from: usize) -> Result<Status, Cannot> {
    if is_word(rt, i, b"report") {
        return tool_shown::report(rt, out, from);
    }
    if is_word(rt, i, b"check") {
        return tool_shown::check(rt, out, from);
    }
    if is_word(rt, i, b"page") {
        return tool_shown::page(rt, out, from);
    }
    if is_word(rt, i, b"list") {
        return tool_shown::list(rt, out, from);
    }
    Err(refuse(rt, i))
}

// Answers the command that is argument i.
fn answer(rt: &impl Host, out: &mut Out, i: usize) -> Result<Status, Cannot> {
    if tool_ends::arg_count(rt) <= i {
        put_help(out);
        return Ok(Status::Done);
    }
    let from = i.saturating_add(1);
    if is_word(rt, i, b"help") || is_word(rt, i, b"--help") {
        put_help(out);
        return Ok(Status::Done);
    }
    if is_word(rt, i, b"plays") {
        return tool_part::plays::plays(rt, out, from);
    }
    if is_word(rt, i, b"note") {
        return tool_part::note::note(rt, out, from);
    }
    if is_word(rt, i, b"edit") {
        return tool_edit::edit(rt, out, from);
    }
    if is_word(rt, i, b"verify") {
        return tool_verify::verify(rt, out, from);
    }
    show(rt, out, i, from)
}

// Where the first argument asks that the status is told, the command is the second.
fn answer_first(rt: &impl Host, out: &mut Out, is_told: bool) -> Result<Status, Cannot> {
    if is_told {
        return answer(rt, out, 2);
    }
    answer(rt, out, 1)
}

fn main(rt: HostRuntime) -> ExitCode {
    take_descriptors(&rt);
    let is_told = is_word(&rt, 1, b"--status-to-3");
    let mut out = Out::new(rt.alloc(), To::Output);
    let mut status = answer_first(&rt, &mut out, is_told).unwrap_or(Status::Cannot);
    out.flush(&rt);
    if out.is_failed() {
        complain_of(&rt, b"", b"standard output", b"it cannot be written");
        status = Status::Cannot;
    }
    if is_told {
        tell(&rt, status);
    }
    ExitCode::from(status.code())
}
