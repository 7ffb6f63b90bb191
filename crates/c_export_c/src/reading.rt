// Strict reading and the salvage list (document 01, "The CASM body" and "The salvage list").
ghost use Rattle.layout.specs.Promises.{CasmFound, SectionRead, BodyRead, PartFound, ChannelFound, Salvaged, EntryJudged, PlaceFound};
ghost use Rattle.c_export.specs.Crossing.{as_located, as_counted, as_measured, as_named, GroupCrossed, as_channelled, as_sited};

use c_export::answer::{Bounds, Count, Holder, Length, Position, Section, Site};

// Finds the CASM section of a style file: the place of its tag and the length of its body.
#[unsafe(no_mangle)]
pub extern "C" fn casm_find(file: &[u8]) -> Section
    ensures { CasmFound file.now (as_located result) }
{
    c_export::reading::casm_find(file)
}

// A section of a style file by the place of its tag: the length of its body.
#[unsafe(no_mangle)]
pub extern "C" fn casm_section_at(file: &[u8], tag: usize) -> Length
    ensures { SectionRead file.now tag (as_measured result) }
{
    c_export::reading::casm_section_at(file, tag)
}

// Reads a body strictly: the number of its groups.
#[unsafe(no_mangle)]
pub extern "C" fn casm_body(body: &[u8]) -> Count
    ensures { BodyRead body.now (as_counted result) }
{
    c_export::reading::casm_body(body)
}

// The number of the group that has a part.
#[unsafe(no_mangle)]
pub extern "C" fn casm_part(body: &[u8], part: &[u8]) -> Holder
    ensures { PartFound body.now part.now (as_named result) }
{
    c_export::reading::casm_part(body, part)
}

// Where a group and its parts stand in the body, by the group's number.
#[unsafe(no_mangle)]
pub extern "C" fn casm_group(body: &[u8], group: usize) -> Bounds
    ensures { GroupCrossed body.now group result }
{
    c_export::reading::casm_group(body, group)
}

// The record of a source channel in a group: its number among the group's records, and the place of its byte 0.
#[unsafe(no_mangle)]
pub extern "C" fn casm_channel(body: &[u8], group: usize, source: u8) -> Position
    ensures { ChannelFound body.now group source (as_channelled result) }
{
    c_export::reading::casm_channel(body, group, source)
}

// Fills a lent list with a body's salvage list, three numbers an entry (place, length, kind): how many entries there are.
#[unsafe(no_mangle)]
pub extern "C" fn casm_salvage(body: &[u8], list: &mut [usize]) -> Count
    ensures { Salvaged body.now list.old (as_counted result) list.new }
{
    c_export::reading::casm_salvage(body, list)
}

// An entry of a salvage list by its bytes alone: the size of its group, or the refusal with its place in the entry.
#[unsafe(no_mangle)]
pub extern "C" fn casm_entry(entry: &[u8]) -> Length
    ensures { EntryJudged entry.now (as_measured result) }
{
    c_export::reading::casm_entry(entry)
}

// What stands at a place of a body, or of an entry of its salvage list.
#[unsafe(no_mangle)]
pub extern "C" fn casm_site_at(body: &[u8], place: usize) -> Site
    ensures { PlaceFound body.now place (as_sited result) }
{
    c_export::reading::casm_site_at(body, place)
}
