// What the editions differ in besides their ranges: the tag of a record's chunk, the size of a record, and so where the Ctabs of a group stand.
ghost use Rattle.std.specs.Prelude.{◌≡◌, ◌≤◌, ◌<◌, length};
ghost use Rattle.layout.specs.Bytes.{four};
ghost use Rattle.layout.specs.Editions.{tag_of, size, held};
ghost use Rattle.layout.specs.Group.{ctab_place};

use layout::edition::Edition;
use layout::size::{CTAB_STRIDE, CTB2_STRIDE, HELD, RECORD, SECOND_RECORD};
use layout::tag::{CTAB, CTB2};

// The tag of a record's chunk, as a number.
#[tactic(auto, unfolding(layout::specs::Bytes::four))]
pub fn tag_of(edition: Edition) -> usize
    ensures { (four result ≡ tag_of edition) × (result < 4294967296) }
{
    match edition {
        Edition::First => CTAB,
        Edition::Second => CTB2,
    }
}

// The bytes of a record in the file.
pub fn size_of(edition: Edition) -> usize
    ensures { result ≡ size edition }
{
    match edition {
        Edition::First => RECORD,
        Edition::Second => SECOND_RECORD,
    }
}

// Of them those held in memory.
pub fn held_of(edition: Edition) -> usize
    ensures { result ≡ held edition }
{
    match edition {
        Edition::First => HELD,
        Edition::Second => SECOND_RECORD,
    }
}

// The place of Ctab number n of the run that begins at p, within the bytes c.
pub fn ctab_place(edition: Edition, c: &[u8], p: usize, n: usize) -> usize
    requires { ctab_place edition p n ≤ length c.now }
    ensures { result ≡ ctab_place edition p n }
{
    match edition {
        Edition::First => p + CTAB_STRIDE * n,
        Edition::Second => p + CTB2_STRIDE * n,
    }
}
