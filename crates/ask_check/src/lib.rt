// Checking what other editors return (document 02, §13): whether two bodies, or two style files, differ in one record only, and if not, where first.
#![tactic(auto)]

pub mod both;
pub mod unlike;

ghost use Rattle.std.specs.Prelude.{◌≡◌, ◌+◌, ◌≤◌, length};
ghost use Rattle.layout.specs.Answers.{granted};
ghost use Rattle.layout.specs.Style.{casm_found};
ghost use Rattle.layout.specs.Check.{Denied, compared, checked, files_checked};
ghost use Rattle.layout.specs.Promises.{BodiesChecked, FilesChecked};
ghost use Rattle.ask_check.specs.Told.{told, section};

use crate::both::{NoRecord, find_in_both};
use crate::unlike::first_unlike;
use layout::answer::{Checked, Which};
use layout::record::SourceChannel;
use read_find::look::section_body;
use read_record::edition::size_of;
use read_style::find_casm;

// The answer that refuses.
fn denied(which: Which, number: u8, place: usize) -> Checked
    ensures { result ≡ checked (Denied which number place) }
{
    Checked {
        number,
        place,
        which,
        yes: false,
        unlike: 0,
    }
}

// The answer that accepts.
fn answer(yes: bool, unlike: usize) -> Checked
    ensures { result ≡ told yes unlike }
{
    Checked {
        number: 0,
        place: 0,
        which: Which::Neither,
        yes,
        unlike,
    }
}

// Whether the two are equally long and differ in no byte outside the n bytes at `at`; if not, the first place at which they are unlike.
fn compare(before: &[u8], after: &[u8], at: usize, n: usize) -> Checked
    requires { at + n ≤ length before.now }
    ensures { result ≡ checked (compared before.now after.now at n) }
{
    let k = first_unlike(before, after, at, n);
    if before.len() != after.len() {
        return answer(false, k);
    }
    if k < before.len() {
        return answer(false, k);
    }
    answer(true, 0)
}

// The body that came back against the body that was sent.
pub fn check_bodies(before: &[u8], after: &[u8], group: usize, channel: SourceChannel) -> Checked
    ensures { BodiesChecked before.now after.now group channel.0 result }
{
    match find_in_both(before, after, group, channel) {
        Err(NoRecord::InBefore(why)) => denied(Which::BeforeBody, why.number, why.place),
        Err(NoRecord::InAfter(why)) => denied(Which::AfterBody, why.number, why.place),
        Err(NoRecord::Nowhere(number)) => denied(Which::BeforeBody, number, 0),
        Ok(x) => compare(before, after, x.at, size_of(x.edition)),
    }
}

// The file that came back against the file that was sent, their CASM tags standing at x and y before bodies of n and m bytes: the bodies are read where they lie, and the files compared.
fn check_found(
    before: &[u8],
    x: usize,
    n: usize,
    after: &[u8],
    y: usize,
    m: usize,
    group: usize,
    channel: SourceChannel,
) -> Checked
    requires { (casm_found before.now ≡ granted (section x n)) × (casm_found after.now ≡ granted (section y m)) }
    ensures { result ≡ checked (files_checked before.now after.now group channel.0) }
{
    let s = section_body(before, x, n);
    let t = section_body(after, y, m);
    match find_in_both(s, t, group, channel) {
        Err(NoRecord::InBefore(why)) => denied(Which::BeforeBody, why.number, x + 8 + why.place),
        Err(NoRecord::InAfter(why)) => denied(Which::AfterBody, why.number, y + 8 + why.place),
        Err(NoRecord::Nowhere(number)) => denied(Which::BeforeBody, number, 0),
        Ok(found) => compare(before, after, x + 8 + found.at, size_of(found.edition)),
    }
}

// The style file that came back against the style file that was sent.
pub fn check_files(before: &[u8], after: &[u8], group: usize, channel: SourceChannel) -> Checked
    ensures { FilesChecked before.now after.now group channel.0 result }
{
    let x = find_casm(before);
    if x.number != 0 {
        return denied(Which::BeforeFile, x.number, x.place);
    }
    let y = find_casm(after);
    if y.number != 0 {
        return denied(Which::AfterFile, y.number, y.place);
    }
    check_found(
        before, x.tag, x.length, after, y.tag, y.length, group, channel,
    )
}
