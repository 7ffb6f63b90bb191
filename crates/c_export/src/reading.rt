// Strict reading and the salvage list (document 01, "The CASM body" and "The salvage list").
ghost use Rattle.std.specs.Prelude.{◌≡◌};
ghost use Rattle.layout.specs.Promises.{CasmFound, SectionRead, BodyRead, PartFound, ChannelFound, Salvaged, EntryJudged, PlaceFound};
ghost use Rattle.c_export.specs.Crossing.{as_located, as_counted, as_measured, as_named, edition_told, GroupCrossed, as_channelled, as_sited};

use crate::answer::{Bounds, Count, Holder, Length, Position, Section, Site};
use c_row::row::edition_number;
use layout::edition::Edition;
use layout::record::SourceChannel;

// Finds the CASM section of a style file: the place of its tag and the length of its body.
#[unsafe(no_mangle)]
pub extern "C" fn casm_find(file: &[u8]) -> Section
    ensures { CasmFound file.now (as_located result) }
{
    let x = casm::read::find_casm(file);
    Section {
        number: x.number,
        place: x.place,
        tag: x.tag,
        length: x.length,
    }
}

// A section of a style file by the place of its tag: the length of its body.
#[unsafe(no_mangle)]
pub extern "C" fn casm_section_at(file: &[u8], tag: usize) -> Length
    ensures { SectionRead file.now tag (as_measured result) }
{
    let x = casm::read::read_section(file, tag);
    Length {
        number: x.number,
        place: x.place,
        length: x.length,
    }
}

// Reads a body strictly: the number of its groups.
#[unsafe(no_mangle)]
pub extern "C" fn casm_body(body: &[u8]) -> Count
    ensures { BodyRead body.now (as_counted result) }
{
    let x = casm::read::read_body(body);
    Count {
        number: x.number,
        place: x.place,
        count: x.count,
    }
}

// The number of the group that has a part.
#[unsafe(no_mangle)]
pub extern "C" fn casm_part(body: &[u8], part: &[u8]) -> Holder
    ensures { PartFound body.now part.now (as_named result) }
{
    let x = casm::read::find_part(body, part);
    Holder {
        number: x.number,
        place: x.place,
        group: x.group,
    }
}

// The number of the edition of so many records: 0 for none.
fn edition_told(edition: Edition, records: usize) -> u8
    ensures { result ≡ edition_told edition records }
{
    if records == 0 {
        return 0;
    }
    edition_number(edition)
}

// Where a group and its parts stand in the body, by the group's number.
#[unsafe(no_mangle)]
pub extern "C" fn casm_group(body: &[u8], group: usize) -> Bounds
    ensures { GroupCrossed body.now group result }
{
    let x = casm::read::find_group(body, group);
    let g = x.group;
    let own = g.edition;
    let edition = edition_told(own, g.records);
    Bounds {
        number: x.number,
        place: x.place,
        at: g.at,
        size: g.size,
        text_at: g.text,
        text_length: g.length,
        records_at: g.ctabs,
        records: g.records,
        cntts_at: g.cntts,
        cntts: g.seconds,
        edition,
    }
}

// The record of a source channel in a group: its number among the group's records, and the place of its byte 0.
#[unsafe(no_mangle)]
pub extern "C" fn casm_channel(body: &[u8], group: usize, source: u8) -> Position
    ensures { ChannelFound body.now group source (as_channelled result) }
{
    let x = casm::read::find_channel(body, group, SourceChannel(source));
    Position {
        number: x.number,
        place: x.place,
        record: x.row,
        at: x.at,
    }
}

// Fills a lent list with a body's salvage list, three numbers an entry (place, length, kind): how many entries there are.
#[unsafe(no_mangle)]
pub extern "C" fn casm_salvage(body: &[u8], list: &mut [usize]) -> Count
    ensures { Salvaged body.now list.old (as_counted result) list.new }
{
    let x = casm::list::list_salvage(body, list);
    Count {
        number: x.number,
        place: x.place,
        count: x.count,
    }
}

// An entry of a salvage list by its bytes alone: the size of its group, or the refusal with its place in the entry.
#[unsafe(no_mangle)]
pub extern "C" fn casm_entry(entry: &[u8]) -> Length
    ensures { EntryJudged entry.now (as_measured result) }
{
    let x = casm::list::judge_entry(entry);
    Length {
        number: x.number,
        place: x.place,
        length: x.length,
    }
}

// What stands at a place of a body, or of an entry of its salvage list.
#[unsafe(no_mangle)]
pub extern "C" fn casm_site_at(body: &[u8], place: usize) -> Site
    ensures { PlaceFound body.now place (as_sited result) }
{
    let x = casm::read::find_place(body, place);
    Site {
        number: x.number,
        place: x.place,
        group: x.group,
        child: x.child,
        chunk: x.chunk,
    }
}
