// The questions: who plays under a chord, what a voice is called, and where a note goes.
ghost use Rattle.layout.specs.Promises.{PlaysTold, VoiceShown, VoiceFound, NotePlaced};

use layout::answer::{Placed, Played, Spanned};
use layout::record::{Record, SourceChannel};

// The source channels of a part's group that play under a chord root and chord type, in Ctab order.
pub fn who_plays(s: &[u8], name: &[u8], root: u8, kind: u8) -> Played
    ensures { PlaysTold s.now name.now root kind result }
{
    ask_plays::who_plays(s, name, root, kind)
}

// Where the voice name of a source channel's record stands, its trailing spaces left off.
pub fn find_voice(s: &[u8], group: usize, channel: SourceChannel) -> Spanned
    ensures { VoiceFound s.now group channel.0 result }
{
    ask_voice::find_voice(s, group, channel)
}

// The voice name itself, where it lies; empty on refusal and for eight spaces.
pub fn voice_name<'a>(s: &'a [u8], group: usize, channel: SourceChannel) -> &'a [u8]
    ensures { VoiceShown s.now group channel.0 result.now }
{
    ask_voice::voice_name(s, group, channel)
}

// The note that a record gives under a chord root, or the refusal.
pub fn place_note(r: Record, root: u8, note: u8) -> Placed
    ensures { NotePlaced r root note result }
{
    ask_place::place_note(r, root, note)
}
