// The verb `salvage`: the call on a lent list, three numbers an entry (place, length, kind), and whether the rest of the list was kept.
#![tactic(auto)]

use casm::list::list_salvage;
use script_text::print::Printed;
use script_words::bytes::Room;
use script_words::word::Words;

// Enough for any body.
const ENTRIES: usize = 8192;

const LIST: usize = 3 * ENTRIES;

// The first `count` entries.
fn put_entries(out: &mut Printed, list: &[usize], count: usize) {
    let (entries, _) = list.as_chunks::<3>();
    for [place, size, kind] in entries.iter().take(count) {
        out.number(*place);
        out.byte(b',');
        out.digits(*size);
        out.byte(b',');
        out.digits(*kind);
    }
}

// Whether the list has so many entries, and every number behind them still is 7.
fn is_kept(list: &[usize], count: usize) -> bool {
    let (entries, _) = list.as_chunks::<3>();
    count <= entries.len() && entries.iter().skip(count).all(|e| matches!(e, [7, 7, 7]))
}

// `salvage BYTES ROOM`: there are no entries where the call is refused. Every number is 7 before it, so that what it leaves alone can be seen.
pub fn salvage(words: &mut Words<'_>, room: &mut Room, out: &mut Printed) -> Option<()> {
    let body = words.bytes(room)?;
    let entries = words.up_to(ENTRIES)?;
    words.end()?;
    let mut list = [7; LIST];
    let lent = &mut list[..3 * entries];
    let listed = list_salvage(body, lent);
    if out.answer(listed.number, listed.place) {
        out.number(listed.count);
    }
    put_entries(out, lent, listed.count);
    out.kept(is_kept(lent, listed.count));
    Some(())
}
