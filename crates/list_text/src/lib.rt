// What the program `list` prints of a file (document 01, "Marked examples": the program `list`), in a lent buffer.
#![tactic(auto)]

ghost use mathlib.Core.List.{flat_map};
ghost use Rattle.std.specs.Prelude.{◌≡◌, ◌+◌, ◌*◌, ◌≤◌, length};
ghost use Rattle.layout.specs.Answers.{granted};
ghost use Rattle.layout.specs.Body.{body_limit};
ghost use Rattle.layout.specs.Salvage.{salvage};
ghost use Rattle.layout.specs.Listing.{entry_line, text_listed, FileListed};
ghost use Rattle.list_spell.specs.Puts.{Put};
ghost use Rattle.list_text.specs.Held.{entries_in};

use layout::limit::LISTED;
use layout::refusal::OVER_LIMIT;
use list_spell::lines::{put_casm, put_end, put_entry, put_refused};

// Room for the text of any file.
pub const TEXT: usize = 131072;

// Three numbers for each of 8,192 entries, "enough for any body".
const LIST: usize = 24576;

// The lines of the first n entries of a list from `at` on. Each asks for the 63 bytes that a line of any numbers has.
fn put_entries(out: &mut [u8], at: usize, list: &[usize], n: usize) -> usize
    requires { (3 * n ≤ length list.now) × (at + length (flat_map entry_line (entries_in list.now n)) + 63 ≤ length out.old) }
    ensures { Put out.old at (flat_map entry_line (entries_in list.now n)) result out.new }
{
    let mut behind = at;
    for k in 0..n {
        let from = 3 * k;
        behind = put_entry(out, behind, list[from], list[from + 1], list[from + 2]);
    }
    behind
}

// The text of a body whose tag stands at `tag` of its file. The list has room for the entries of any body, so the call does not refuse.
fn list_body(out: &mut [u8], tag: usize, body: &[u8]) -> usize
    requires { (length out.old ≡ 131072) × (length body.now ≤ body_limit) }
    ensures { Put out.old 0 (text_listed (record { start = tag; size = length body.now }) (granted (salvage body.now))) result out.new }
{
    let mut list = [0usize; LIST];
    let listed = read_salvage::list_salvage(body, &mut list);
    let count = listed.count;
    let named = put_casm(out, tag, body.len());
    let told = put_entries(out, named, &list, count);
    put_end(out, told, count)
}

// Puts the text at the start of the buffer and answers its length.
pub fn list_file(file: &[u8], out: &mut [u8; TEXT]) -> usize
    ensures { FileListed file.now out.old result out.new }
{
    let text: &mut [u8] = out;
    if LISTED < file.len() {
        return put_refused(text, OVER_LIMIT, 0);
    }
    // Its answer is a number and a place, 0 for none, as the answers that cross to C have it.
    let found = read_style::find_casm(file);
    if found.number != 0 {
        return put_refused(text, found.number, found.place);
    }
    let tag = found.tag;
    let start = tag + 8;
    let end = start + found.length;
    list_body(text, tag, &file[start..end])
}
