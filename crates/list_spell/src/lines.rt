// The lines of the text, each put at a place of a lent buffer.
ghost use Rattle.std.specs.Prelude.{◌+◌, ◌≤◌, length};
ghost use Rattle.layout.specs.Listing.{refused_line, casm_line, entry_line, end_line};
ghost use Rattle.list_spell.specs.Puts.{Put};

use crate::put::{put_bytes, put_number, put_spaced};

// "A refusal prints "refused", number, place", at the start: at most 50 bytes.
pub fn put_refused(out: &mut [u8], number: u8, place: usize) -> usize
    requires { 50 ≤ length out.old }
    ensures { Put out.old 0 (refused_line number place) result out.new }
{
    let named = put_bytes(out, 0, b"refused");
    let numbered = put_spaced(out, named, number as usize);
    let placed = put_spaced(out, numbered, place);
    put_bytes(out, placed, b"\n")
}

// "CASM tag place and body length", at the start: at most 47 bytes.
pub fn put_casm(out: &mut [u8], tag: usize, size: usize) -> usize
    requires { 47 ≤ length out.old }
    ensures put { Put out.old 0 (casm_line (record { start = tag; size = size })) result out.new }
    ensures upper_bound { result ≤ 47 }
{
    let named = put_bytes(out, 0, b"casm");
    let placed = put_spaced(out, named, tag);
    let measured = put_spaced(out, placed, size);
    put_bytes(out, measured, b"\n")
}

// "per entry place, length, kind": at most 63 bytes.
pub fn put_entry(out: &mut [u8], at: usize, place: usize, size: usize, kind: usize) -> usize
    requires { at + 63 ≤ length out.old }
    ensures { Put out.old at (entry_line (record { place = place; size = size; kind = kind })) result out.new }
{
    let placed = put_number(out, at, place);
    let sized = put_spaced(out, placed, size);
    let told = put_spaced(out, sized, kind);
    put_bytes(out, told, b"\n")
}

// "the entry count": at most 25 bytes.
pub fn put_end(out: &mut [u8], at: usize, n: usize) -> usize
    requires { at + 25 ≤ length out.old }
    ensures { Put out.old at (end_line n) result out.new }
{
    let named = put_bytes(out, at, b"end");
    let counted = put_spaced(out, named, n);
    put_bytes(out, counted, b"\n")
}
