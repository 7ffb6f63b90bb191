// The tables of a body's groups: what a reading of it keeps, so that each group is found again where it lies. They are the caller's,
// made once and lent, and no name is copied (document 02, §5).
ghost use Rattle.std.specs.Prelude.{◌≡◌, ◌<◌};
ghost use Rattle.read_body.specs.Known.{edition_after, with_group};

use layout::edition::Edition;
use layout::limit::GROUPS;
use layout::turn::Inside;

// How many Ctabs a group has, and how many Cntts.
#[derive(Clone, Copy)]
pub struct Counts {
    pub ctabs: u8,
    pub cntts: u8,
}

// The groups that were read, by their numbers: tables of fixed size, since the library uses no heap. The places stand in one of their own,
// because names are looked for by them alone (`read_met`).
#[derive(Drop)]
pub struct Groups {
    // How many they are.
    pub count: usize,
    // Where the tag of each stands.
    pub places: [u16; GROUPS],
    // What each has.
    pub counts: [Counts; GROUPS],
    // The edition of those that have records; none where none of them has.
    pub edition: Option<Edition>,
}

// The edition of a body after a group: the first that has records decides.
fn edition_after(body: Option<Edition>, group: Inside) -> Option<Edition>
    ensures { result ≡ edition_after body group.edition group.ctabs }
{
    if group.ctabs == 0 {
        return body;
    }
    body.or(Some(group.edition))
}

impl Groups {
    // No group.
    pub fn none() -> Groups
        ensures { (result.count ≡ 0) × (result.edition ≡ None) }
    {
        Groups {
            count: 0,
            places: [0; GROUPS],
            counts: [Counts { ctabs: 0, cntts: 0 }; GROUPS],
            edition: None,
        }
    }

    // One group more, which stands at `at`.
    pub(crate) fn enter(&mut self, at: usize, group: Inside)
        requires { (self.old.count < 32) × ((at < 65536) × ((group.ctabs < 256) × (group.cntts < 256))) }
        ensures { self.new ≡ with_group self.old at group }
    {
        self.places[self.count] = at as u16;
        self.counts[self.count] = Counts {
            ctabs: group.ctabs as u8,
            cntts: group.cntts as u8,
        };
        self.edition = edition_after(self.edition, group);
        self.count += 1;
    }
}
