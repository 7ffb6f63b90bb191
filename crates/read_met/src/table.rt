// A table of the names met: 128 words of 64 bits, of which each name has set up to five of one word.
// So a name that was met is known again, and one that was not is seldom taken for it. (A set of names would need the heap, which the library does without.)
ghost use Rattle.std.specs.Prelude.{◌<◌, ◌≡◌, length};
ghost use Rattle.read_met.specs.Table.{bits, looked_at, Meeting};

// 1 KiB: what the stack of a handheld spares (document 02, §5).
pub const WORDS: usize = 128;
// The shares of the names that a pass looks at: those with marks in the lower half, those in the upper half, all of them.
#[derive(Clone, Copy)]
pub enum Share {
    Lower,
    Upper,
    All,
}

// Whether a pass over a share looks at a name of this mark.
#[tactic(auto, unfolding(crate::specs::Table::looked_at))]
pub fn is_looked_at(share: Share, mark: usize) -> bool
    ensures { result ≡ looked_at share mark }
{
    match share {
        Share::Lower => mark / 137438953472 == 0,
        Share::Upper => mark / 137438953472 == 1,
        Share::All => true,
    }
}

// The bits of a mark: five of 64, by six bits of the mark each.
#[tactic(auto, using(read_names::proofs::Words::one_bit))]
fn bits_of(mark: usize) -> u64
    ensures { result ≡ bits mark }
{
    1u64 << (mark / 16777216 % 64)
        | 1u64 << (mark / 262144 % 64)
        | 1u64 << (mark / 4096 % 64)
        | 1u64 << (mark / 64 % 64)
        | 1u64 << (mark % 64)
}

// Whether a name of this mark was met; from here on it is.
pub fn meet(table: &mut [u64; WORDS], mark: usize) -> bool
    ensures { Meeting table.old table.new mark result }
{
    let word = mark / 1073741824 % WORDS;
    let old = table[word];
    let new = old | bits_of(mark);
    table[word] = new;
    new == old
}
