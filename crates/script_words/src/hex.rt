// Pairs of hex digits in lower case.
ghost use Rattle.std.specs.Prelude.{◌<◌, IfSome};

// The value of a hex digit.
fn hex_value(b: u8) -> Option<u8>
    ensures { IfSome result (λ v. v < 16) }
{
    match b {
        b'0'..=b'9' => Some(b - b'0'),
        b'a'..=b'f' => Some(b - b'a' + 10),
        _ => None,
    }
}

// The byte of a pair.
pub fn byte_of(high: u8, low: u8) -> Option<u8> {
    Some(hex_value(high)? * 16 + hex_value(low)?)
}

// Whether all are hex digits.
pub fn is_hex(s: &[u8]) -> bool {
    s.iter().all(|b| hex_value(*b).is_some())
}

// Fills the room with the bytes of pairs; None where there are more pairs or fewer, or something else stands among them.
// What stands there is judged first: a loop that fills and may end at each digit takes half as long again.
pub fn decode(pairs: &[u8], room: &mut [u8]) -> Option<()> {
    let (both, rest) = pairs.as_chunks::<2>();
    if !rest.is_empty() || both.len() != room.len() || !is_hex(pairs) {
        return None;
    }
    for (b, [high, low]) in room.iter_mut().zip(both) {
        *b = hex_value(*high).unwrap_or(0) * 16 + hex_value(*low).unwrap_or(0);
    }
    Some(())
}
