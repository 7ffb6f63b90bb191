// BYTES: `-` for none, or parts joined by `+`. A part is pairs of hex digits, or such pairs, `*` and how often they stand.
ghost use Rattle.std.specs.Prelude.{◌≤◌, IfSome};

use crate::hex::{decode, is_hex};
use crate::word::number;

// The most bytes that BYTES may be, and all the room for them.
pub const ROOM: usize = 1048577;

pub type Room = [u8; ROOM];

pub fn room() -> Room {
    [0; ROOM]
}

// The pairs of a part, and how often they stand.
fn cut(part: &[u8]) -> Option<(&[u8], u32)> {
    match part.iter().position(|b| *b == b'*') {
        Some(end) => Some((&part[..end], number(&part[end + 1..])?)),
        None => Some((part, 1)),
    }
}

// The place behind `held` bytes and so many more, so often, where they have room.
fn place_behind(held: usize, count: usize, often: u32) -> Option<usize>
    ensures { IfSome result (λ end. end ≤ 1048577) }
{
    let end = held.checked_add(count.checked_mul(often as usize)?)?;
    if end > ROOM {
        return None;
    }
    Some(end)
}

// A part behind the `held` bytes in the room. It has a pair at least. Answers how many bytes the room then holds.
fn put_part(part: &[u8], room: &mut Room, held: usize) -> Option<usize>
    requires { held ≤ 1048577 }
    ensures { IfSome result (λ end. end ≤ 1048577) }
{
    let (pairs, often) = cut(part)?;
    if pairs.is_empty() || pairs.len() % 2 != 0 {
        return None;
    }
    let Some(more) = often.checked_sub(1) else {
        // None of them is put, and they are pairs all the same.
        return is_hex(pairs).then_some(held);
    };
    let count = pairs.len() / 2;
    let once = held + count;
    decode(pairs, room.get_mut(held..once)?)?;
    let end = place_behind(once, count, more)?;
    // The bytes before a place, over and over.
    for i in once..end {
        room[i] = room[i - count];
    }
    Some(end)
}

// The BYTES that a word is, put into the room from its start.
pub fn take_bytes<'r>(word: &[u8], room: &'r mut Room) -> Option<&'r mut [u8]> {
    let mut held = 0;
    if word != b"-".as_slice() {
        for part in word.split(|b| *b == b'+') {
            held = put_part(part, room, held)?;
        }
    }
    Some(&mut room[..held])
}
