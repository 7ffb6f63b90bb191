// One group in its parent (document 01, "The CASM body"): its Ctabs, its Cntts, its contents.
#![tactic(auto)]

pub mod cntts;
pub mod ctabs;

ghost use Rattle.std.specs.Prelude.{◌≡◌, ◌+◌, ◌≤◌, length};
ghost use Rattle.layout.specs.Bytes.{CSEG as Cseg};
ghost use Rattle.layout.specs.Group.{head_fault, ctab_place, ctab_channel, after_ctabs, edition_at, contents, group_at};
ghost use Rattle.layout.specs.Scan.{Ended};
ghost use Rattle.read_group.specs.Seen.{Seen};

use crate::cntts::read_cntts;
use crate::ctabs::read_ctabs;
use layout::edition::Edition;
use layout::limit::CHANNELS;
use layout::refusal::{BAD_TAG, BAD_TEXT};
use layout::tag::{CSEG, CTB2, SDEC};
use layout::turn::{Inside, Judged, Refusal};
use read_record::edition::ctab_place;

// The edition of the records from p on, by the tag that stands there.
fn edition_at(c: &[u8], p: usize) -> Edition
    requires { p ≤ length c.now }
    ensures { result ≡ edition_at c.now p }
{
    if c.len() - p < 8 {
        return Edition::First;
    }
    if read_bytes::is_tagged(c, p, CTB2) {
        return Edition::Second;
    }
    Edition::First
}

// What stands behind a text and n Ctabs: Cntts, or behind Ctb2s nothing.
fn judge_behind(
    edition: Edition,
    c: &[u8],
    text: usize,
    n: usize,
    seen: &[bool; CHANNELS],
) -> Judged
    requires { (ctab_place edition (8 + text) n ≤ length c.now) × Seen (ctab_channel edition c.now (8 + text)) n seen.now }
    ensures { result ≡ after_ctabs edition c.now text (Ended n) }
{
    match edition {
        Edition::First => {
            let m = read_cntts(c, 8 + text, n, seen)?;
            Ok(Inside {
                edition,
                text,
                ctabs: n,
                cntts: m,
            })
        }
        Edition::Second => {
            let at = ctab_place(Edition::Second, c, 8 + text, n);
            if at != c.len() {
                return Err(Refusal {
                    number: BAD_TAG,
                    place: at,
                });
            }
            Ok(Inside {
                edition,
                text,
                ctabs: n,
                cntts: 0,
            })
        }
    }
}

// The contents of a group: one Sdec, then Ctabs, then Cntts, or in their place Ctb2s, with nothing between or after.
pub fn judge_contents(c: &[u8]) -> Judged
    ensures { result ≡ contents c.now }
{
    read_bytes::check_head(c, 0, SDEC)?;
    let text = read_bytes::word_at(c, 4);
    let p = 8 + text;
    if !read_names::is_sound_text(&c[8..p]) {
        return Err(Refusal {
            number: BAD_TEXT,
            place: 0,
        });
    }
    let edition = edition_at(c, p);
    let ctabs = read_ctabs(edition, c, p)?;
    judge_behind(edition, c, text, ctabs.count, &ctabs.seen)
}

// A group whose header is without fault, at the start of its parent's bytes.
pub fn judge_headed(p: &[u8]) -> Judged
    requires { head_fault p.now 0 Cseg ≡ 0 }
    ensures { result ≡ group_at p.now }
{
    let length = read_bytes::word_at(p, 4);
    if length == 0 {
        return Err(Refusal {
            number: BAD_TAG,
            place: 0,
        });
    }
    let end = 8 + length;
    match judge_contents(&p[8..end]) {
        Ok(inside) => Ok(inside),
        Err(why) => Err(Refusal {
            number: why.number,
            place: 8 + why.place,
        }),
    }
}

// The group at the start of its parent's bytes.
pub fn judge_group(p: &[u8]) -> Judged
    ensures { result ≡ group_at p.now }
{
    read_bytes::check_head(p, 0, CSEG)?;
    judge_headed(p)
}
