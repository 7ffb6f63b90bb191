// The record that was to be changed, looked for in the body before, both bodies being read: "the before body's, the after body's, 16, then 15 in the before body" (document 02, §13).
ghost use Rattle.std.specs.Prelude.{◌≡◌};
ghost use Rattle.layout.specs.Body.{body_run};
ghost use Rattle.layout.specs.Asked.{channel_found};
ghost use Rattle.ask_check.specs.Both.{both_found};

use layout::edition::Edition;
use layout::record::SourceChannel;
use layout::refusal::BAD_NUMBER;
use layout::turn::Refusal;
use read_find::row::find_in;
use read_find::{locate_group, run_body};

// Where the record stands: its edition, and the place of its byte 0 in the before body.
#[derive(Clone, Copy)]
pub struct RecordAt {
    pub edition: Edition,
    pub at: usize,
}

// Why it is not found.
#[derive(Clone, Copy)]
pub enum NoRecord {
    // The before body is refused.
    InBefore(Refusal),
    // The after body is.
    InAfter(Refusal),
    // Both are read, and the before body has no such group, or the group no such channel: the number.
    Nowhere(u8),
}

// What looking for the record comes to.
pub type Both = Result<RecordAt, NoRecord>;

// The record of a source channel in a group of the before body, both bodies being read once.
pub fn find_in_both(before: &[u8], after: &[u8], group: usize, channel: SourceChannel) -> Both
    ensures { result ≡ both_found (body_run before.now) (body_run after.now) (channel_found before.now group channel.0) }
{
    let found = match locate_group(before, group) {
        Ok(found) => found,
        Err(why) => return Err(NoRecord::InBefore(why)),
    };
    match run_body(after) {
        Ok(_) => {}
        Err(why) => return Err(NoRecord::InAfter(why)),
    }
    let Some(x) = found else {
        return Err(NoRecord::Nowhere(BAD_NUMBER));
    };
    match find_in(before, x.standing, channel) {
        Ok(row) => Ok(RecordAt {
            edition: row.edition,
            at: row.at,
        }),
        Err(why) => Err(NoRecord::Nowhere(why.number)),
    }
}
