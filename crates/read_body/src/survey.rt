// One pass over a body, then one over its names.
ghost use Rattle.std.specs.Prelude.{◌≡◌, ◌≤◌, length};
ghost use Rattle.layout.specs.Body.{group_place};
ghost use Rattle.read_body.specs.Known.{unlike, Fixed, GroupTurned, GroupsEntered, BodySurveyed};

use crate::groups::Groups;
use layout::edition::Edition;
use layout::limit::{BODY, GROUPS};
use layout::refusal::{NAME_AGAIN, OTHER_EDITION, OVER_LIMIT, TOO_MANY_GROUPS};
use layout::tag::CSEG;
use layout::turn::{Inside, Refusal, Run};

// A turn but for its names: where it goes on what is inside the group, and nothing at the body's end.
pub type Turned = Result<Option<Inside>, Refusal>;

// Whether a group is of another edition than the body, where that is known; one without records suits either.
fn is_unlike(body: Option<Edition>, group: Inside) -> bool
    ensures { result ≡ unlike body group.edition group.ctabs }
{
    match body {
        None => false,
        Some(edition) => group.ctabs != 0 && edition != group.edition,
    }
}

// Group number n, which stands at `at`, but for its names. Of the groups before it the edition is known of those that have records.
fn group_turn(s: &[u8], n: usize, at: usize, body: Option<Edition>) -> Turned
    requires { (at ≡ group_place s.now n) × ((at ≤ length s.now) × ((n ≤ 32) × Fixed s.now n body)) }
    ensures { GroupTurned s.now n at result }
{
    if at == s.len() {
        return Ok(None);
    }
    read_bytes::check_head(s, at, CSEG)?;
    if GROUPS <= n {
        return Err(Refusal {
            number: TOO_MANY_GROUPS,
            place: at,
        });
    }
    match read_group::judge_headed(&s[at..]) {
        Err(why) => Err(Refusal {
            number: why.number,
            place: at + why.place,
        }),
        Ok(group) if is_unlike(body, group) => Err(Refusal {
            number: OTHER_EDITION,
            place: at,
        }),
        Ok(group) => Ok(Some(group)),
    }
}

// The groups in their order, each entered in the tables, up to the first that is refused for another reason than its names.
fn enter_groups(s: &[u8], groups: &mut Groups) -> Run
    requires { length s.now ≤ 32768 }
    ensures { GroupsEntered s.now result groups.new }
{
    groups.count = 0;
    groups.edition = None;
    let mut at: usize = 0;
    while let Some(group) = group_turn(s, groups.count, at, groups.edition)? {
        groups.enter(at, group);
        at = at + 8 + read_bytes::word_at(s, at + 4);
    }
    Ok(groups.count)
}

// The whole body: how many groups it has, or the refusal. What is known of each is put into lent tables.
pub fn read_groups(s: &[u8], groups: &mut Groups) -> Run
    ensures { BodySurveyed s.now result groups.new }
{
    if BODY < s.len() {
        return Err(Refusal {
            number: OVER_LIMIT,
            place: 0,
        });
    }
    let run = enter_groups(s, groups);
    let k = read_met::first_again(s, groups.count, &groups.places);
    if k < groups.count {
        return Err(Refusal {
            number: NAME_AGAIN,
            place: read_met::wide(groups.places[k]),
        });
    }
    run
}
