// What other editors return: yes, no with the first place that is unlike, or a refusal with the name of what is refused.
use casm::checking::{check_bodies, check_files};
use layout::answer::{Checked, Which};
use layout::record::SourceChannel;
use script_text::print::Printed;
use script_words::bytes::Room;
use script_words::word::Words;

fn put_which(out: &mut Printed, which: Which) {
    match which {
        Which::Neither => out.text(b" neither"),
        Which::BeforeFile => out.text(b" beforefile"),
        Which::AfterFile => out.text(b" afterfile"),
        Which::BeforeBody => out.text(b" before"),
        Which::AfterBody => out.text(b" after"),
    }
}

fn put_checked(out: &mut Printed, checked: Checked) {
    if !out.answer(checked.number, checked.place) {
        put_which(out, checked.which);
    } else if checked.yes {
        out.text(b" yes");
    } else {
        out.text(b" no");
        out.number(checked.unlike);
    }
    out.end();
}

// `checked BEFORE AFTER G CHANNEL`, and `checkedfile` with the same words: the call is the one that is handed over.
fn check<F: Fn(&[u8], &[u8], usize, SourceChannel) -> Checked>(
    words: &mut Words<'_>,
    before: &mut Room,
    after: &mut Room,
    out: &mut Printed,
    call: F,
) -> Option<()>
    requires { F.IsAlwaysCallable call }
{
    let before = words.bytes(before)?;
    let after = words.bytes(after)?;
    let group = words.number()?;
    let source = SourceChannel(words.byte()?);
    words.end()?;
    put_checked(out, call(before, after, group, source));
    Some(())
}

pub fn bodies(
    words: &mut Words<'_>,
    before: &mut Room,
    after: &mut Room,
    out: &mut Printed,
) -> Option<()> {
    check(words, before, after, out, check_bodies)
}

pub fn files(
    words: &mut Words<'_>,
    before: &mut Room,
    after: &mut Room,
    out: &mut Printed,
) -> Option<()> {
    check(words, before, after, out, check_files)
}
