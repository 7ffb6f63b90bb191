// Where two lent byte strings differ outside one record (document 02, §13): one comparison, in which the record is passed over.
ghost use Rattle.std.specs.Prelude.{true, ◌≡◌, ◌+◌, ◌≤◌, min, length};
ghost use Rattle.layout.specs.Scan.{first};
ghost use Rattle.layout.specs.Check.{first_unlike};
ghost use Rattle.ask_check.specs.Apart.{apart_at, SameFrom};

// So many bytes are compared without a way out between them: the machine then compares them at once.
const BLOCK: usize = 64;

// 1 where two bytes differ.
fn differ(a: u8, b: u8) -> u8
    ensures { (result ≤ 1) × (result ≡ 0 → a ≡ b) }
{
    if a == b {
        return 0;
    }
    1
}

// Whether a block of the two from k on is the same.
fn is_same_block(s: &[u8], t: &[u8], k: usize) -> bool
    requires { (k + 64 ≤ length s.now) × (k + 64 ≤ length t.now) }
    ensures { result ≡ true → SameFrom s.now t.now k 64 }
{
    let mut n: u8 = 0;
    for i in 0..BLOCK {
        n += differ(s[k + i], t[k + i]);
    }
    n == 0
}

// A place from k on before which the two have the same bytes: the start of the first block that is not the same, or of what is left before e.
fn skip_blocks(s: &[u8], t: &[u8], k: usize, e: usize) -> usize
    requires { (k ≤ e) × ((e ≤ length s.now) × (e ≤ length t.now)) }
    ensures { (result ≤ e) × (first (apart_at s.now t.now) k e ≡ first (apart_at s.now t.now) result e) }
{
    let mut i = k;
    while BLOCK <= e - i {
        if !is_same_block(s, t, i) {
            return i;
        }
        i += BLOCK;
    }
    i
}

// The first place from k on and before e at which the two have different bytes, or e where there is none.
fn first_apart(s: &[u8], t: &[u8], k: usize, e: usize) -> usize
    requires { (k ≤ e) × ((e ≤ length s.now) × (e ≤ length t.now)) }
    ensures { result ≡ first (apart_at s.now t.now) k e }
{
    for i in skip_blocks(s, t, k, e)..e {
        if s[i] != t[i] {
            return i;
        }
    }
    e
}

// The first place at which the two have different bytes outside the n bytes at `at`, or the end of the shorter where there is none before it.
pub fn first_unlike(s: &[u8], t: &[u8], at: usize, n: usize) -> usize
    requires { at + n ≤ length s.now }
    ensures { result ≡ first_unlike s.now t.now at n }
{
    let end = s.len().min(t.len());
    let stop = at.min(end);
    let k = first_apart(s, t, 0, stop);
    if k < stop {
        return k;
    }
    if end <= at + n {
        return end;
    }
    first_apart(s, t, at + n, end)
}
