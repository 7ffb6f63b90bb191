// The record of a source channel in a group (document 01, "Numbers of refusal": after the body, 16 for numbers, then 15).
ghost use Rattle.std.specs.Prelude.{◌≡◌, ◌≤◌, length};
ghost use Rattle.layout.specs.Group.{ctab_place, ctab_of};
ghost use Rattle.layout.specs.Answers.{granted};
ghost use Rattle.layout.specs.Asked.{of_channel, channel_found};
ghost use Rattle.read_find.specs.Row.{row_among, sought};

use crate::asked_group;
use layout::answer::Standing;
use layout::edition::Edition;
use layout::record::SourceChannel;
use layout::refusal::NOT_THERE;
use layout::turn::Refusal;
use read_record::edition::ctab_place;

// A record that was found: its edition, its number among the Ctabs of its group, and the place of its byte 0.
#[derive(Clone, Copy)]
pub struct Row {
    pub edition: Edition,
    pub row: usize,
    pub at: usize,
}

// What looking for the record of a source channel comes to.
pub type Sought = Result<Row, Refusal>;

// The number of the first of n Ctabs of an edition from p on that has this source channel, where one has.
fn find_row(edition: Edition, s: &[u8], p: usize, n: usize, channel: u8) -> Option<usize>
    requires { ctab_place edition p n ≤ length s.now }
    ensures { result ≡ row_among n (ctab_of edition s.now p n channel) }
{
    for i in 0..n {
        if s[ctab_place(edition, s, p, i) + 8] == channel {
            return Some(i);
        }
    }
    None
}

// The record of a source channel in a group that stands so: 15 where the group has no such channel.
pub fn find_in(s: &[u8], x: Standing, channel: SourceChannel) -> Sought
    requires { ctab_place x.edition x.ctabs x.records ≤ length s.now }
    ensures { result ≡ sought (of_channel s.now x channel.0 (λ row. granted row)) }
{
    let Some(row) = find_row(x.edition, s, x.ctabs, x.records, channel.0) else {
        return Err(Refusal {
            number: NOT_THERE,
            place: 0,
        });
    };
    Ok(Row {
        edition: x.edition,
        row,
        at: ctab_place(x.edition, s, x.ctabs, row) + 8,
    })
}

// The record of a source channel: 16 where the body has no such group, 15 where the group has no such channel.
pub fn find_record(s: &[u8], group: usize, channel: SourceChannel) -> Sought
    ensures { result ≡ sought (channel_found s.now group channel.0) }
{
    let found = asked_group(s, group)?;
    find_in(s, found.standing, channel)
}
