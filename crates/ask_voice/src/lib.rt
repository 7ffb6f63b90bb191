// The voice name of a record (document 01, "The CASM body": "the voice name is shown as the caller's own bytes with trailing 20H bytes left off").
#![tactic(auto)]

ghost use Rattle.std.specs.Prelude.{◌≡◌, ◌+◌, ◌≤◌, length};
ghost use Rattle.layout.specs.Voice.{trimmed, voice_bytes};
ghost use Rattle.layout.specs.Promises.{VoiceFound, VoiceShown};

use layout::answer::Spanned;
use layout::record::SourceChannel;
use read_find::row::find_record;

// How many bytes of the voice name are shown of the record whose byte 0 stands at `at`: trailing 20H bytes are left off.
fn shown_length(s: &[u8], at: usize) -> usize
    requires { at + 9 ≤ length s.now }
    ensures { result ≡ length (trimmed (voice_bytes s.now at)) }
{
    let mut name = &s[at + 1..at + 9];
    while let [rest @ .., 0x20] = name {
        name = rest;
    }
    name.len()
}

// Where the voice name of a source channel's record stands, its trailing spaces left off.
pub fn find_voice(s: &[u8], group: usize, channel: SourceChannel) -> Spanned
    ensures { VoiceFound s.now group channel.0 result }
{
    match find_record(s, group, channel) {
        Err(why) => Spanned {
            number: why.number,
            place: why.place,
            start: 0,
            length: 0,
        },
        Ok(row) => {
            let n = shown_length(s, row.at);
            Spanned {
                number: 0,
                place: 0,
                start: row.at + 1,
                length: n,
            }
        }
    }
}

// The voice name of a source channel's record, where it lies; empty on refusal.
pub fn voice_name<'a>(s: &'a [u8], group: usize, channel: SourceChannel) -> &'a [u8]
    ensures { VoiceShown s.now group channel.0 result.now }
{
    let found = find_voice(s, group, channel);
    let start = found.start;
    let end = start + found.length;
    &s[start..end]
}
