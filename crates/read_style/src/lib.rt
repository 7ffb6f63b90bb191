// The sections of a style file (document 01, "The style file"): the CASM section, found in one walk over them, and one by the place of its tag.
#![tactic(auto)]

ghost use Rattle.std.specs.Prelude.{cond, ◌≡◌, ◌+◌, ◌<◌, ◌≤◌, ltb, length, Some};
ghost use Rattle.layout.specs.Bytes.{word, four, tagged, CASM as CASMTAG};
ghost use Rattle.layout.specs.Style.{no_style, section_tagged, section_turn_at, casm_found, section_read};
ghost use Rattle.layout.specs.Promises.{CasmFound, SectionRead};
ghost use Rattle.read_style.specs.Walk.{Fit, Walked, SectionsRead, told, told_section};

use layout::answer::{Located, Measured};
use layout::limit::{BODY, FILE};
use layout::refusal::{CUT, NO_CASM, NOT_STYLE, OVER_LIMIT, TAG_AGAIN};
use layout::tag::{CASM, MTHD, MTRK};
use layout::turn::{Met, Refusal, Turn};

// A section: the place of its tag, and the length of its body.
#[derive(Clone, Copy)]
struct Section {
    tag: usize,
    length: usize,
}

// Whether the file is no style file: its MThd, the length of that, its MTrk and the track's end.
fn is_no_style(file: &[u8]) -> bool
    ensures { result ≡ no_style file.now }
{
    if file.len() < 22 {
        return true;
    }
    if !read_bytes::is_tagged(file, 0, MTHD) {
        return true;
    }
    if read_bytes::word_at(file, 4) != 6 {
        return true;
    }
    if !read_bytes::is_tagged(file, 14, MTRK) {
        return true;
    }
    file.len() - 22 < read_bytes::word_at(file, 18)
}

// The length of a section's body, by the place of its tag: cut is its header, or its body.
fn section_length(file: &[u8], tag: usize) -> Result<usize, Refusal>
    ensures { told result ≡ section_read file.now tag }
{
    let cut = Refusal {
        number: CUT,
        place: tag,
    };
    if file.len() < 8 || file.len() - 8 < tag {
        return Err(cut);
    }
    let length = read_bytes::word_at(file, tag + 4);
    if file.len() - 8 - tag < length {
        return Err(cut);
    }
    Ok(length)
}

// Whether one of the first n sections, which begin at `start`, has this tag.
fn is_seen(file: &[u8], start: usize, n: usize, tag: usize) -> bool
    requires { (start ≡ 22 + word file.now 18) × (Fit file.now n × (tag < 4294967296)) }
    ensures { result ≡ ltb (section_tagged file.now n (four tag)) n }
{
    let mut place = start;
    for _ in 0..n {
        if read_bytes::word_at(file, place) == tag {
            return true;
        }
        place = place + 8 + read_bytes::word_at(file, place + 4);
    }
    false
}

// Section number n, at `at`.
fn section_turn(file: &[u8], start: usize, n: usize, at: usize) -> Turn
    requires { (start ≡ 22 + word file.now 18) × Walked file.now n at }
    ensures { result ≡ section_turn_at file.now n at }
{
    if at == file.len() {
        return Ok(Met::End);
    }
    section_length(file, at)?;
    let again = Refusal {
        number: TAG_AGAIN,
        place: at,
    };
    if is_seen(file, start, n, read_bytes::word_at(file, at)) {
        return Err(again);
    }
    Ok(Met::Chunk)
}

// The place of the CASM tag after the section at `at`, `casm` being the place before it.
fn casm_after(file: &[u8], at: usize, casm: Option<usize>) -> Option<usize>
    requires { at + 4 ≤ length file.now }
    ensures { result ≡ cond (tagged file.now at CASMTAG) (Some at) casm }
{
    if read_bytes::is_tagged(file, at, CASM) {
        return Some(at);
    }
    casm
}

// All sections, in one walk: the place of the CASM tag among them. Where they end is seen by the place, not by a number, so no range counts n.
fn read_sections(file: &[u8]) -> Result<Option<usize>, Refusal>
    requires { 22 + word file.now 18 ≤ length file.now }
    ensures { SectionsRead file.now result }
{
    let start = 22 + read_bytes::word_at(file, 18);
    let mut at = start;
    let mut n: usize = 0;
    let mut casm: Option<usize> = None;
    while let Met::Chunk = section_turn(file, start, n, at)? {
        casm = casm_after(file, at, casm);
        at = at + 8 + read_bytes::word_at(file, at + 4);
        n += 1;
    }
    Ok(casm)
}

// The CASM section.
fn casm_section(file: &[u8]) -> Result<Section, Refusal>
    ensures { told_section result ≡ casm_found file.now }
{
    if FILE < file.len() {
        return Err(Refusal {
            number: OVER_LIMIT,
            place: 0,
        });
    }
    if is_no_style(file) {
        return Err(Refusal {
            number: NOT_STYLE,
            place: 0,
        });
    }
    let Some(casm) = read_sections(file)? else {
        return Err(Refusal {
            number: NO_CASM,
            place: file.len(),
        });
    };
    let length = read_bytes::word_at(file, casm + 4);
    if BODY < length {
        return Err(Refusal {
            number: OVER_LIMIT,
            place: casm,
        });
    }
    Ok(Section { tag: casm, length })
}

// The place of the CASM tag and the length of its body, or the refusal.
pub fn find_casm(file: &[u8]) -> Located
    ensures { CasmFound file.now result }
{
    match casm_section(file) {
        Ok(casm) => Located {
            number: 0,
            place: 0,
            tag: casm.tag,
            length: casm.length,
        },
        Err(why) => Located {
            number: why.number,
            place: why.place,
            tag: 0,
            length: 0,
        },
    }
}

// A section by the place of its tag, the leading MThd and MTrk too: the length of its body.
pub fn read_section(file: &[u8], tag: usize) -> Measured
    ensures { SectionRead file.now tag result }
{
    match section_length(file, tag) {
        Ok(length) => Measured {
            number: 0,
            place: 0,
            length,
        },
        Err(why) => Measured {
            number: why.number,
            place: why.place,
            length: 0,
        },
    }
}
