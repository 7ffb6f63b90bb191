// Who plays under a chord (document 01, "Who plays"): asked of the group where it stands, the body read once.
#![tactic(auto)]

ghost use Rattle.std.specs.Prelude.{◌≡◌, ◌+◌, ◌≤◌, ◌<◌, length};
ghost use Rattle.layout.specs.Answers.{granted};
ghost use Rattle.layout.specs.Group.{ctab_place};
ghost use Rattle.layout.specs.Plays.{played};
ghost use Rattle.layout.specs.Promises.{PlaysTold};
ghost use Rattle.ask_plays.specs.PlaysAt.{plays_at, players_at, PartAsked};

use layout::answer::{Played, Standing};
use layout::limit::{CHANNELS, KIND, ROOT};
use layout::record::SourceChannel;
use layout::refusal::{BAD_NUMBER, NOT_THERE};
use layout::turn::Refusal;
use read_record::edition::ctab_place;

// Whether the record whose byte 0 stands at `at` plays: both masks have their bit set.
fn is_playing(s: &[u8], at: usize, root: u8, kind: u8) -> bool
    requires { (at + 18 ≤ length s.now) × ((root < 12) × (kind < 34)) }
    ensures { result ≡ plays_at s.now at root kind }
{
    let roots = read_bytes::byte(s, at + 11) * 256 + read_bytes::byte(s, at + 12);
    if (roots >> root) % 2 != 1 {
        return false;
    }
    let chords = read_bytes::byte(s, at + 13) * 0x1_0000_0000 + read_bytes::word_at(s, at + 14);
    (chords >> kind) % 2 == 1
}

// The source channels of a group's Ctabs that play. Sixteen places and a count are the answer as C takes it (`Played`), and root and kind two numbers as the call does.
fn players(s: &[u8], x: Standing, root: u8, kind: u8) -> Played
    requires { (ctab_place x.edition x.ctabs x.records ≤ length s.now) × ((x.records ≤ 16) × ((root < 12) × (kind < 34))) }
    ensures { result ≡ played (granted (players_at x.edition s.now x.ctabs root kind x.records)) }
{
    let mut channels: [SourceChannel; CHANNELS] = [SourceChannel(0); CHANNELS];
    let mut count: usize = 0;
    for i in 0..x.records {
        let at = ctab_place(x.edition, s, x.ctabs, i) + 8;
        if !is_playing(s, at, root, kind) {
            continue;
        }
        channels[count] = SourceChannel(s[at]);
        count += 1;
    }
    Played {
        number: 0,
        place: 0,
        count,
        channels,
    }
}

// Where the group stands that is asked: the body, then the chord's numbers, then the part.
fn asked_part(s: &[u8], name: &[u8], root: u8, kind: u8) -> Result<Standing, Refusal>
    ensures { PartAsked s.now name.now root kind result }
{
    let found = read_find::locate_part(s, name)?;
    if root > ROOT || kind > KIND {
        return Err(Refusal {
            number: BAD_NUMBER,
            place: 0,
        });
    }
    let Some(group) = found else {
        return Err(Refusal {
            number: NOT_THERE,
            place: 0,
        });
    };
    Ok(group.standing)
}

// The source channels of a part's group that play under a chord, in Ctab order.
pub fn who_plays(s: &[u8], name: &[u8], root: u8, kind: u8) -> Played
    ensures { PlaysTold s.now name.now root kind result }
{
    match asked_part(s, name, root, kind) {
        Ok(x) => players(s, x, root, kind),
        Err(why) => Played {
            number: why.number,
            place: why.place,
            count: 0,
            channels: [SourceChannel(0); CHANNELS],
        },
    }
}
