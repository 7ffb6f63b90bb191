// The commands that show one file: `report`, `page` and `list`.
#![tactic(auto)]

use tool_asked::{Asked, Form, asked_from, complain_option, read};
use tool_ends::{Argument, Cannot, Host, Status, complain};
use tool_files::{FILE, contents};
use tool_look::list::List;
use tool_look::{Verdict, look};
use tool_out::Out;

// What is shown of a file.
#[derive(Clone, Copy)]
pub enum View {
    Report,
    Json,
    List,
    Page,
}

fn show_bytes(out: &mut Out, view: View, name: &[u8], file: &[u8], list: &mut List) -> Status {
    if let View::List = view {
        return tool_list::list(out, file, list);
    }
    let seen = look(file, list);
    match view {
        View::Json => tool_json::report(out, name, file, list, seen),
        View::Page => tool_page::page(out, name, file, list, seen),
        _ => tool_report::report(out, name, file, list, seen),
    }
    if seen.verdict == Verdict::Sound {
        return Status::Done;
    }
    Status::No
}

fn show_path(
    rt: &impl Host,
    out: &mut Out,
    view: View,
    path: &[u8],
    bytes: &mut [u8; FILE],
    list: &mut List,
) -> Result<Status, Cannot> {
    let length = read(rt, path, bytes)?;
    Ok(show_bytes(out, view, path, contents(bytes, length), list))
}

// Shows the file that argument i names.
pub fn show(rt: &impl Host, out: &mut Out, view: View, i: usize) -> Result<Status, Cannot> {
    let mut bytes = tool_files::room();
    let mut list = List::new();
    let path = Argument::at(rt, i);
    show_path(rt, out, view, path.text(), &mut bytes, &mut list)
}

// `casm report FILE`, and `casm report --json FILE`.
pub fn report(rt: &impl Host, out: &mut Out, from: usize) -> Result<Status, Cannot> {
    let asked = asked_from(rt, from);
    if let Some(i) = asked.unknown {
        return Err(complain_option(rt, b"report", i, b"--json"));
    }
    let Some(file) = asked.first else {
        return Err(complain(rt, b"report", b"no FILE; expected casm report FILE"));
    };
    if 1 < asked.words {
        return Err(complain(
            rt,
            b"report",
            b"one FILE only; for several there is casm check",
        ));
    }
    match asked.form {
        Form::Words => show(rt, out, View::Report, file),
        Form::Json => show(rt, out, View::Json, file),
    }
}

fn has_option(asked: Asked) -> bool {
    asked.unknown.is_some() || asked.form == Form::Json
}

// The file, where one argument is given.
fn only_file(asked: Asked) -> Option<usize> {
    asked.first.filter(|_| asked.words == 1)
}

// `casm list FILE`.
pub fn list(rt: &impl Host, out: &mut Out, from: usize) -> Result<Status, Cannot> {
    let asked = asked_from(rt, from);
    if has_option(asked) {
        return Err(complain(rt, b"list", b"it takes no option; expected casm list FILE"));
    }
    match only_file(asked) {
        Some(file) => show(rt, out, View::List, file),
        None => Err(complain(
            rt,
            b"list",
            b"expected one FILE, as in casm list ballad.sty",
        )),
    }
}

// `casm page FILE`.
pub fn page(rt: &impl Host, out: &mut Out, from: usize) -> Result<Status, Cannot> {
    let asked = asked_from(rt, from);
    if has_option(asked) {
        return Err(complain(rt, b"page", b"it takes no option; expected casm page FILE"));
    }
    match only_file(asked) {
        Some(file) => show(rt, out, View::Page, file),
        None => Err(complain(
            rt,
            b"page",
            b"expected one FILE, as in casm page ballad.sty > ballad.html",
        )),
    }
}

// `casm check FILE..`.
pub fn check(rt: &impl Host, out: &mut Out, from: usize) -> Result<Status, Cannot> {
    let asked = asked_from(rt, from);
    if let Some(i) = asked.unknown {
        return Err(complain_option(rt, b"check", i, b"--json"));
    }
    match asked.first {
        Some(first) => Ok(tool_check::check(rt, out, asked, first)),
        None => Err(complain(rt, b"check", b"no FILE; expected casm check FILE..")),
    }
}
