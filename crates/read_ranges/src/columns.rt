// Bytes judged by the columns of a table of ranges, whichever edition's (document 01, "The CASM body"; document 02, §4): the lowest and the highest value of each byte, and which bytes are tables, judged by the rule before them, too.
// A column is an array of its own, and each edition lends its three where their numbers are known: so they go into the tests, and are not laid down in memory (docs/SPEED.md, "The columns of a Ctb2's ranges").
ghost use Rattle.std.specs.Prelude.{◌≡◌, ◌+◌, ◌≤◌, ◌<◌, not, ◌&&◌, length};
ghost use Rattle.layout.specs.Scan.{first};
ghost use Rattle.layout.specs.Ranges.{sound_table, rule_at};
ghost use Rattle.read_ranges.specs.Judging.{out_by, out_standing};

use layout::rule::THIRD;

// Whether a byte that is a table, if it is one, is barred by the rule before it: 00-0A, or 00-02 under rule 2, each with or without bit 7.
#[tactic(auto, unfolding(layout::specs::Ranges::sound_table))]
fn is_barred(ruled: bool, rule: u8, v: u8) -> bool
    ensures { result ≡ ruled && not (sound_table rule v) }
{
    if !ruled {
        return false;
    }
    if rule == THIRD {
        return 0x02 < v % 128;
    }
    0x0A < v % 128
}

// Whether a value is out of the range of byte k, which stands behind the byte `rule`.
#[tactic(auto, unfolding(crate::specs::Judging::out_by))]
pub fn is_out_by(low: &[u8], high: &[u8], ruled: &[bool], k: usize, rule: u8, v: u8) -> bool
    requires { (k < length low.now) × ((k < length high.now) × (k < length ruled.now)) }
    ensures { result ≡ out_by low.now high.now ruled.now k rule v }
{
    if v < low[k] {
        return true;
    }
    if high[k] < v {
        return true;
    }
    is_barred(ruled[k], rule, v)
}

// The byte before byte k of the record at `at`, 0 where there is none: the rule of its set, where byte k is a table.
#[tactic(auto, unfolding(layout::specs::Ranges::rule_at))]
pub fn rule_before(s: &[u8], at: usize, k: usize) -> u8
    requires { at + k ≤ length s.now }
    ensures { result ≡ rule_at s.now at k }
{
    if k == 0 {
        return 0;
    }
    s[at + k - 1]
}

// The first byte from byte `from` on and before byte `to` of the record at `at` that is out of its range, or `to` where none is.
// A table is gone over in parts with bounds that are numbers: so short a loop is laid out whole, and the columns go into its tests.
pub fn first_out_part(
    low: &[u8],
    high: &[u8],
    ruled: &[bool],
    s: &[u8],
    at: usize,
    from: usize,
    to: usize,
) -> usize
    requires { (from ≤ to) × ((at + to ≤ length s.now) × ((to ≤ length low.now) × ((to ≤ length high.now) × (to ≤ length ruled.now)))) }
    ensures { result ≡ first (out_standing low.now high.now ruled.now s.now at) from to }
{
    let mut rule = rule_before(s, at, from);
    for k in from..to {
        let b = s[at + k];
        if is_out_by(low, high, ruled, k, rule, b) {
            return k;
        }
        rule = b;
    }
    to
}
