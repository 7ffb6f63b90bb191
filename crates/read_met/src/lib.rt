// Groups by the names of their parts: the first that has a name, and the first that has a name of one before it (document 01, "Strict body": 13).
// Names are compared where they lie. Each name met is known again by its mark, so that few are compared with those of the groups before.
// Where none of n is found the answer is n, as the definitions have it (`Asked.group_named`, `Scan.first`).
// What is known of the groups is one name, `Places`, over how many they are. It is no struct: the tables are lent by the caller, and the count goes from group to group, so that each step would make a new one and prove it.
#![tactic(auto)]

ghost use Rattle.std.specs.Prelude.{◌≡◌, false, ◌+◌, ◌≤◌, ◌<◌, ltb, length};
ghost use Rattle.layout.specs.Body.{group_place, text_at};
ghost use Rattle.layout.specs.Asked.{group_named};
ghost use Rattle.layout.specs.Scan.{first};
ghost use Rattle.read_met.specs.Table.{looked_at};
ghost use Rattle.read_met.specs.Before.{Places, Marks, again, again_in, NameMet, NamedBefore};

use layout::limit::GROUPS;
use layout::size::HEADERS;
use table::{Share, WORDS};

mod table;

// So many names are looked at in one pass; where they are more, in two, so that the table stays small and seldom takes a new name for a known one.
const CROWD: usize = 1280;

// A place of the table, as a place in the body.
pub fn wide(place: u16) -> usize
    ensures { result ≡ place }
{
    usize::from(place)
}

// The text of group number k, where it lies.
fn text_of<'a>(s: &'a [u8], places: &[u16; GROUPS], k: usize) -> &'a [u8]
    requires { (k < 32) × Places s.now (k + 1) places.now }
    ensures { result.now ≡ text_at s.now (group_place s.now k) }
{
    let start = usize::from(places[k]) + HEADERS;
    let end = start + read_bytes::word_at(s, start - 4);
    &s[start..end]
}

// The number of the first of n groups that has the part, or n where none has.
pub fn group_named(s: &[u8], n: usize, places: &[u16; GROUPS], name: &[u8]) -> usize
    requires { (n ≤ 32) × Places s.now n places.now }
    ensures { result ≡ group_named s.now n name.now }
{
    for k in 0..n {
        if read_names::has_name(text_of(s, places, k), name) {
            return k;
        }
    }
    n
}

// Whether one of the n groups has the name. Where it was not met none has, and nothing is compared.
fn is_taken(s: &[u8], n: usize, places: &[u16; GROUPS], met: bool, name: &[u8]) -> bool
    requires { (n ≤ 32) × (Places s.now n places.now × (met ≡ false → n ≤ group_named s.now n name.now)) }
    ensures { result ≡ ltb (group_named s.now n name.now) n }
{
    met && group_named(s, n, places, name) < n
}

// Whether a name is of the share looked at and one of the n groups has it; a name of the share is met.
fn is_name_met(
    s: &[u8],
    n: usize,
    places: &[u16; GROUPS],
    table: &mut [u64; WORDS],
    share: Share,
    name: &[u8],
) -> bool
    requires { (n ≤ 32) × (Places s.now n places.now × Marks s.now n share table.old) }
    ensures { NameMet s.now n share name.now result table.old table.new }
{
    let mark = read_names::mark_of(name);
    if !table::is_looked_at(share, mark) {
        return false;
    }
    let met = table::meet(table, mark);
    is_taken(s, n, places, met, name)
}

// Whether group number n has a name of one of the n before it, of the share looked at. Where it has none, its names are met.
fn is_named_before(
    s: &[u8],
    n: usize,
    places: &[u16; GROUPS],
    table: &mut [u64; WORDS],
    share: Share,
) -> bool
    requires { (n < 32) × (Places s.now (n + 1) places.now × Marks s.now n share table.old) }
    ensures { NamedBefore s.now n share result table.new }
{
    for name in text_of(s, places, n).split(|b| *b == b',') {
        if is_name_met(s, n, places, table, share, name) {
            return true;
        }
    }
    false
}

// The first of n groups that has a name of one before it, of the share looked at, or n where none has.
fn again_in(s: &[u8], n: usize, places: &[u16; GROUPS], share: Share) -> usize
    requires { (n ≤ 32) × Places s.now n places.now }
    ensures { result ≡ first (again_in share s.now) 0 n }
{
    let mut table = [0; WORDS];
    for k in 0..n {
        if is_named_before(s, k, places, &mut table, share) {
            return k;
        }
    }
    n
}

// How many commas a text has.
fn commas_in(t: &[u8]) -> usize
    ensures { result ≤ length t.now }
{
    t.iter().filter(|b| **b == b',').count()
}

// Whether the names of n groups are more than one pass looks at.
fn is_crowded(s: &[u8], n: usize, places: &[u16; GROUPS]) -> bool
    requires { (n ≤ 32) × Places s.now n places.now }
{
    let mut count = n;
    for k in 0..n {
        if CROWD < count {
            return true;
        }
        count += commas_in(text_of(s, places, k));
    }
    CROWD < count
}

// The first of n groups that has a name of one before it, or n where none has.
pub fn first_again(s: &[u8], n: usize, places: &[u16; GROUPS]) -> usize
    requires { (n ≤ 32) × Places s.now n places.now }
    ensures { result ≡ first (again s.now) 0 n }
{
    if !is_crowded(s, n, places) {
        return again_in(s, n, places, Share::All);
    }
    let k = again_in(s, n, places, Share::Lower);
    again_in(s, k, places, Share::Upper)
}
