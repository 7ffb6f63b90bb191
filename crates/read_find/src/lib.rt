// The groups of an accepted body: one by its number, one by the name of a part; and a record by its source channel.
#![tactic(auto)]

pub mod look;
pub mod row;
pub mod site;

ghost use Rattle.std.specs.Prelude.{◌≡◌, ◌+◌, ◌≤◌, length, drop};
ghost use Rattle.layout.specs.Bytes.{word};
ghost use Rattle.layout.specs.Group.{Sound, group_at};
ghost use Rattle.layout.specs.Body.{body_run};
ghost use Rattle.layout.specs.Asked.{standing_at};
ghost use Rattle.layout.specs.Refusals.{bad_number};
ghost use Rattle.read_body.specs.Known.{edition_with, Entered};
ghost use Rattle.read_find.specs.Find.{numbered, group_located, part_located, told};

use layout::answer::Standing;
use layout::edition::Edition;
use layout::refusal::BAD_NUMBER;
use layout::size::HEADERS;
use layout::turn::{Refusal, Run};
use read_body::groups::Groups;
use read_body::survey::read_groups;
use read_record::edition::ctab_place;

// A group that was found: its number, and where it and its parts stand.
#[derive(Clone, Copy)]
pub struct Stands {
    pub group: usize,
    pub standing: Standing,
}

// What looking for a group comes to: where the body is accepted, the group, if it has it.
pub type Search = Result<Option<Stands>, Refusal>;

// The edition of a group of so many records in a body of an edition.
fn edition_with(body: Option<Edition>, ctabs: u8) -> Edition
    ensures { result ≡ edition_with body ctabs }
{
    if ctabs == 0 {
        return Edition::First;
    }
    body.unwrap_or(Edition::First)
}

// Where the parts of the group at `at` stand, which is of an edition and has so many Ctabs and Cntts.
fn standing_at(s: &[u8], at: usize, edition: Edition, ctabs: u8, cntts: u8) -> Standing
    requires { (at ≤ length s.now) × (group_at (drop at s.now) ≡ Sound edition (word s.now (at + 12)) ctabs cntts) }
    ensures { result ≡ standing_at s.now at (group_at (drop at s.now)) }
{
    let length = read_bytes::word_at(s, at + 12);
    let start = at + HEADERS + length;
    let records = ctabs as usize;
    Standing {
        edition,
        at,
        size: 8 + read_bytes::word_at(s, at + 4),
        text: at + HEADERS,
        length,
        ctabs: start,
        records,
        cntts: ctab_place(edition, s, start, records),
        seconds: cntts as usize,
    }
}

// Group number k of those in the tables.
fn group_numbered(s: &[u8], groups: &Groups, k: usize) -> Option<Stands>
    requires { Entered s.now groups.now.count groups.now }
    ensures { Ok result ≡ numbered s.now groups.now.count k }
{
    if groups.count <= k {
        return None;
    }
    let counts = groups.counts[k];
    let standing = standing_at(
        s,
        read_met::wide(groups.places[k]),
        edition_with(groups.edition, counts.ctabs),
        counts.ctabs,
        counts.cntts,
    );
    Some(Stands { group: k, standing })
}

// The run of a body's groups, where none of them is asked for.
pub fn run_body(s: &[u8]) -> Run
    ensures { result ≡ body_run s.now }
{
    read_groups(s, &mut Groups::none())
}

// A group by its number.
pub fn locate_group(s: &[u8], group: usize) -> Search
    ensures { result ≡ group_located s.now group }
{
    let mut groups = Groups::none();
    read_groups(s, &mut groups)?;
    Ok(group_numbered(s, &groups, group))
}

// A group by the name of a part.
pub fn locate_part(s: &[u8], name: &[u8]) -> Search
    ensures { result ≡ part_located s.now name.now }
{
    let mut groups = Groups::none();
    let n = read_groups(s, &mut groups)?;
    let k = read_met::group_named(s, n, &groups.places, name);
    Ok(group_numbered(s, &groups, k))
}

// The group that was looked for; where the body has no such group, that is refused with a number.
pub fn found_or(search: Search, number: u8) -> Result<Stands, Refusal>
    ensures { result ≡ told number search }
{
    search?.ok_or(Refusal { number, place: 0 })
}

// The group that is asked for by its number: 16 where the body has no such group.
pub fn asked_group(s: &[u8], group: usize) -> Result<Stands, Refusal>
    ensures { result ≡ told bad_number (group_located s.now group) }
{
    found_or(locate_group(s, group), BAD_NUMBER)
}
