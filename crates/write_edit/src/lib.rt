// Editing (document 01, "Writing and editing"; document 02, §4 and §6): the record of a group and source channel replaced inside a lent body, or inside a lent style file.
#![tactic(auto)]

pub mod file;

ghost use Rattle.std.specs.Prelude.{◌≡◌, ◌+◌, ◌≤◌, length};
ghost use Rattle.layout.specs.Editions.{size};
ghost use Rattle.layout.specs.Lock.{keeps};
ghost use Rattle.layout.specs.Promises.{RecordEdited};
ghost use Rattle.write_edit.specs.EditAt.{EditedAt, told};

use layout::answer::Answered;
use layout::edition::Edition;
use layout::lock::{LOCK, LOCKED, Override};
use layout::record::{Record, SourceChannel};
use layout::refusal::{BAD_NUMBER, OTHER_EDITION, OUT_OF_RANGE, READ_ONLY};
use read_find::row::find_record;
use read_ranges::first_out_held;
use read_record::bytes::bytes_of;
use read_record::edition::held_of;
use read_record::held::edition_of;
use write_chunks::put::put_held;

pub(crate) fn answer(number: u8, place: usize) -> Answered
    ensures { result ≡ told number place }
{
    Answered { number, place }
}

// Whether a record with this byte 10 stays as it is: it is locked, and the caller does not ask to override.
fn is_kept(over: Override, lock: u8) -> bool
    ensures { result ≡ keeps over lock }
{
    match over {
        Override::NotAsked => lock == LOCKED,
        Override::Asked => false,
    }
}

// The record of an edition whose byte 0 stands at `at`: its source channel and its edition stay, it is not locked as it stands, or its lock is overridden, and the bytes of the new one are in their ranges. Its Cntt is not looked at.
pub(crate) fn edit_at(
    s: &mut [u8],
    edition: Edition,
    at: usize,
    channel: SourceChannel,
    new: Record,
    over: Override,
) -> Answered
    requires { at + size edition ≤ length s.old }
    ensures { EditedAt s.old edition at channel.0 new over result s.new }
{
    let source = new.source;
    if source.0 != channel.0 {
        return answer(BAD_NUMBER, 0);
    }
    let own = edition_of(new);
    if edition != own {
        return answer(OTHER_EDITION, 0);
    }
    let lock = s[at + LOCK];
    if is_kept(over, lock) {
        return answer(READ_ONLY, LOCK);
    }
    let n = held_of(edition);
    let b = bytes_of(new);
    let k = first_out_held(edition, &b);
    if k < n {
        return answer(OUT_OF_RANGE, k);
    }
    put_held(edition, &mut s[at..], &b[..n]);
    answer(0, 0)
}

// Replaces the record of a group and source channel; only that Ctab's bytes change, and nothing on refusal.
pub fn edit_record(
    s: &mut [u8],
    group: usize,
    channel: SourceChannel,
    new: Record,
    over: Override,
) -> Answered
    ensures { RecordEdited s.old group channel.0 new over result s.new }
{
    match find_record(s, group, channel) {
        Err(why) => answer(why.number, why.place),
        Ok(row) => edit_at(s, row.edition, row.at, channel, new, over),
    }
}
