// Bytes for code that prints: every position has an answer, so that nothing is owed where it is asked.
#![tactic(auto)]

ghost use Rattle.std.specs.Prelude.{◌<◌};

// The part of a text that begins at `at` and has so many bytes; what of it is past the end is left off.
pub fn part<'a>(s: &'a [u8], at: usize, length: usize) -> &'a [u8] {
    let from = at.min(s.len());
    let size = length.min(s.len() - from);
    &s[from..from + size]
}

// The byte at a place, 0 where there is none.
pub fn byte_at(s: &[u8], at: usize) -> u8 {
    s.get(at).copied().unwrap_or(0)
}

// The length that stands behind a tag of a chunk, its four bytes at `at`.
pub fn word_at(s: &[u8], at: usize) -> usize
    ensures { result < 4294967296 }
{
    u32::from_be_bytes([0, 1, 2, 3].map(|i| byte_at(s, at.saturating_add(i)))) as usize
}

// Whether a tag stands at a place.
pub fn is_tag(s: &[u8], at: usize, tag: &[u8]) -> bool {
    part(s, at, 4) == tag
}
