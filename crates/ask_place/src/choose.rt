// Which set of a record places a note, and its effective table (document 01, "Placing a note"; document 02, §4). From there on placing is about one set and one table, whatever the edition.
ghost use Rattle.std.specs.Prelude.{◌≡◌, ◌<◌, ◌≤◌, length};
ghost use Rattle.layout.specs.declared.edition.Edition.TheVariants.{Second};
ghost use Rattle.layout.specs.Records.{Absent};
ghost use Rattle.layout.specs.Records.{form_of};
ghost use Rattle.layout.specs.Place.{effective, set_for, bypass, fixed};

use layout::record::{SecondTable, Set};
use layout::rule::{FIXED, THIRD};
use read_record::made::set_at;

// The effective table of a Ctab: the Cntt value if present; else 00, 01, 02, 03, 04, 05 become 00, 01, 02, 81, 03, 05 (H).
pub fn effective_table(second: SecondTable, table: u8) -> u8
    requires { table < 6 }
    ensures { result ≡ effective second table }
{
    match second {
        Some(v) => v,
        None => {
            let becomes = [0x00, 0x01, 0x02, 0x81, 0x03, 0x05];
            becomes[table as usize]
        }
    }
}

// The set of a Ctb2 for a note, where its bytes stand: below the middle notes the low one, above them the high one.
pub fn set_of_ctb2(b: &[u8], note: u8) -> Set
    requires { 47 ≤ length b.now }
    ensures { result ≡ set_for (form_of Second b.now Absent 0) note }
{
    if note < b[20] {
        return set_at(b, 22);
    }
    if b[21] < note {
        return set_at(b, 34);
    }
    set_at(b, 28)
}

// Whether an effective table is 00 or 80, so that the shift is 0 under rules 0 and 1.
pub fn is_bypass(table: u8) -> bool
    ensures { result ≡ bypass table }
{
    table == 0x00 || table == 0x80
}

// Whether no note is placed: under rule 2 always, under root fixed without bypass.
pub fn is_fixed(rule: u8, table: u8) -> bool
    ensures { result ≡ fixed rule table }
{
    if rule == THIRD {
        return true;
    }
    if is_bypass(table) {
        return false;
    }
    rule == FIXED
}
