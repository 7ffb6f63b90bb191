// The text of an Sdec and its names (document 01, "The CASM body": Sdec), judged and compared where they lie: no name is copied.
#![tactic(auto)]

ghost use Rattle.std.specs.Prelude.{◌≡◌, false, ◌^◌, ◌<◌, ◌≤◌, length, take};
ghost use Rattle.layout.specs.Lists.{same, has};
ghost use Rattle.layout.specs.Sdec.{names, sound_text};
ghost use Rattle.read_names.specs.Parts.{part, Ends, Checked, cuts, Placed};
ghost use Rattle.read_names.specs.Marks.{mark, spread, sign};

use layout::limit::{NAME, TEXT};

// Where the name that starts at `i` ends: at the next comma, or at the text's end.
pub fn name_end(t: &[u8], i: usize) -> usize
    requires { i ≤ length t.now }
    ensures { Ends t.now i result }
{
    for k in i..t.len() {
        if t[k] == b',' {
            return k;
        }
    }
    t.len()
}

// Where the name that starts at `i` ends: at the next comma, or at the text's end; none where one of its bytes is not 20H to 7EH.
fn checked_end(t: &[u8], i: usize) -> Option<usize>
    requires { i ≤ length t.now }
    ensures { Checked t.now i result }
{
    for k in i..t.len() {
        if t[k] == b',' {
            return Some(k);
        }
        if t[k] < 0x20 || 0x7E < t[k] {
            return None;
        }
    }
    Some(t.len())
}

// Whether two names are the same. Nearly all that are compared differ in their first bytes, where this loop leaves; `==` of slices took up to 1.7 times as long, by where its code stood (docs/SPEED.md, "What was slow").
fn is_name(one: &[u8], name: &[u8]) -> bool
    ensures { result ≡ same one.now name.now }
{
    if one.len() != name.len() {
        return false;
    }
    for k in 0..name.len() {
        if one[k] != name[k] {
            return false;
        }
    }
    true
}

// Whether the name is one of those that end at `ends`.
fn is_again(t: &[u8], ends: &[u8], name: &[u8]) -> bool
    requires { Placed (length t.now) 0 ends.now }
    ensures { result ≡ has (cuts t.now 0 ends.now) name.now }
{
    let mut i = 0;
    for e in ends {
        let e = usize::from(*e);
        if is_name(&t[i..e], name) {
            return true;
        }
        i = e + 1;
    }
    false
}

// The bit of a name, one of 64.
#[tactic(auto, using(crate::proofs::Words::one_bit), unfolding(crate::specs::Marks::sign))]
fn bit_of(name: &[u8]) -> u64
    requires { 0 < length name.now }
    ensures { result ≡ 2 ^ sign name.now }
{
    let n = name.len();
    1u64 << ((7 * usize::from(name[0]) + usize::from(name[n - 1]) + n) % 64)
}

// Whether a text keeps the rules: 1 to 255 bytes, each 20H to 7EH, cut at commas into names of 1 to 16 bytes, no name twice.
// Where each name so far ends is kept, at most 128 of them (no heap here), so that no comma is looked for twice; and the bit of each in `met`: a name whose bit is not set is none of them, and is not compared.
pub fn is_sound_text(t: &[u8]) -> bool
    ensures { result ≡ sound_text t.now }
{
    if TEXT < t.len() {
        return false;
    }
    let mut ends = [0; 128];
    let mut m = 0;
    let mut met = 0;
    let mut i = 0;
    // A step is a name and its comma, not one byte.
    while i <= t.len() {
        let Some(e) = checked_end(t, i) else {
            return false;
        };
        if e == i {
            return false;
        }
        if NAME < e - i {
            return false;
        }
        let name = &t[i..e];
        let with = met | bit_of(name);
        if with == met && is_again(t, &ends[..m], name) {
            return false;
        }
        ends[m] = e as u8;
        m += 1;
        met = with;
        i = e + 1;
    }
    true
}

// Whether a name is one of a text's.
pub fn has_name(t: &[u8], name: &[u8]) -> bool
    ensures { result ≡ has (names t.now) name.now }
{
    t.split(|b| *b == b',').any(|one| one == name)
}

// The bits of a number below 2^32 spread over 38. Remainders and quotients are by powers of two: masks and shifts.
fn spread_of(m: usize) -> usize
    requires { m < 4294967296 }
    ensures { (result ≡ spread m) × (result < 274877906944) }
{
    (m / 65536 + m % 65536 * 65536) * 2654435761 / 1024 % 274877906944
}

// The mark of a name.
pub fn mark_of(name: &[u8]) -> usize
    ensures { (result ≡ mark name.now) × (result < 274877906944) }
{
    let mut m = 0;
    for b in name {
        m = (m + usize::from(*b)) * 2654435761 % 4294967296;
    }
    spread_of(m)
}
