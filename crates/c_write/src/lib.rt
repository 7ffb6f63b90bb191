// A group written from a flat table of records (document 01, "Writing and editing"). The rows are taken one at a time as they stand: no record of one is made, and no table of them.
#![tactic(auto)]

ghost use Rattle.std.specs.Prelude.{◌≡◌, ◌+◌, ◌≤◌, length, take, Ok};
ghost use mathlib.Core.List.{flat_map};
ghost use Rattle.layout.specs.Edit.{replaced};
ghost use Rattle.layout.specs.Editions.{size};
ghost use Rattle.layout.specs.Group.{ctab_place};
ghost use Rattle.layout.specs.Promises.{GroupWritten};
ghost use Rattle.layout.specs.Records.{edition_of};
ghost use Rattle.layout.specs.Write.{ctab_bytes};
ghost use Rattle.write_plan.specs.Checking.{Looking, looked, laid_after, OneEdition, plan_of, measured_by};
ghost use Rattle.c_row.specs.Flat.{row_size, lent_rows, record_in, table_of};

use c_row::flat::row_count;
use c_row::row::{BYTES_AT, CNTT_AT, HAS_AT, POSITION_AT, edition_by, second_by};
use layout::answer::Measured;
use layout::edition::Edition;
use layout::size::{ROW, SECOND_RECORD};
use read_record::edition::held_of;
use write_chunks::places::put_ctab_at;
use write_chunks::put::put_bytes;
use write_chunks::start::put_frame;
use write_plan::{Checked, Looked, Planned, Taken, begin, look_at_bytes, measured, plan_for};

// Row number i looked at as the record that it stands for.
fn look_at_row(x: Checked, i: usize, row: &[u8], cntts: &mut [u8; 32]) -> Looked
    requires { (length row.now ≡ row_size) × Looking (Ok x) i }
    ensures { (result ≡ looked cntts.old (Ok x) i (record_in row.now)) × (cntts.new ≡ laid_after cntts.old (Ok x) i (record_in row.now)) }
{
    let edition = edition_by(row[0]);
    let second = second_by(row[HAS_AT], row[CNTT_AT]);
    look_at_bytes(
        Ok(x),
        i,
        edition,
        &row[BYTES_AT..],
        second,
        row[POSITION_AT],
        cntts,
    )
}

// What writing a text and the first records of a flat table comes to: each record is looked at once.
// Their Cntts are laid down in one place: passed by value, each record would wait for the one before. The first refusal ends it: carried along, it would be looked at with each record.
fn plan_rows(text: &[u8], flat: &[u8], count: usize, room: usize) -> Planned
    ensures { result ≡ plan_of text.now (table_of flat.now) count room }
{
    let start = begin(text, row_count(flat.len()), count);
    let mut x = start.checked?;
    let mut cntts = start.cntts;
    let n = x.records;
    for i in 0..n {
        let at = ROW * i;
        x = look_at_row(x, i, &flat[at..at + ROW], &mut cntts)?;
    }
    plan_for(
        Taken {
            checked: Ok(x),
            cntts,
        },
        room,
    )
}

// Ctab number i of those from `at` on, from the bytes of a row of this edition.
// The row's bytes are taken out whole before any is stored: a store might else change what is still to be read, and each would go alone.
fn put_row_bytes(edition: Edition, out: &mut [u8], at: usize, i: usize, row: &[u8])
    requires { (length row.now ≡ row_size) × ((edition ≡ edition_of (record_in row.now)) × (ctab_place edition at i + (8 + size edition) ≤ length out.old)) }
    ensures { out.new ≡ replaced out.old (ctab_place edition at i) (ctab_bytes (record_in row.now)) }
{
    let n = held_of(edition);
    let mut b = [0u8; SECOND_RECORD];
    put_bytes(&mut b, &row[BYTES_AT..BYTES_AT + SECOND_RECORD]);
    put_ctab_at(edition, out, at, i, &b[..n]);
}

// The same, the edition told apart here, so that how many bytes go over is a number for either and not a count.
fn put_row_ctab(edition: Edition, out: &mut [u8], at: usize, i: usize, row: &[u8])
    requires { (length row.now ≡ row_size) × ((edition ≡ edition_of (record_in row.now)) × (ctab_place edition at i + (8 + size edition) ≤ length out.old)) }
    ensures { out.new ≡ replaced out.old (ctab_place edition at i) (ctab_bytes (record_in row.now)) }
{
    match edition {
        Edition::First => {
            put_row_bytes(Edition::First, out, at, i, row);
        }
        Edition::Second => {
            put_row_bytes(Edition::Second, out, at, i, row);
        }
    }
}

// The Ctabs of the first n records, which are of one edition, one after the other from `at` on.
fn put_row_ctabs(edition: Edition, flat: &[u8], n: usize, out: &mut [u8], at: usize)
    requires { (n ≤ lent_rows (length flat.now)) × (OneEdition edition (table_of flat.now) n × (ctab_place edition at n ≤ length out.old)) }
    ensures { out.new ≡ replaced out.old at (flat_map ctab_bytes (take n (table_of flat.now))) }
{
    for i in 0..n {
        let from = ROW * i;
        put_row_ctab(edition, out, at, i, &flat[from..from + ROW]);
    }
}

// The plan, carried out where it does not refuse.
fn put_rows(text: &[u8], flat: &[u8], count: usize, out: &mut [u8]) -> Planned
    ensures { GroupWritten text.now (table_of flat.now) count out.old (measured_by result) out.new }
{
    let plan = plan_rows(text, flat, count, out.len())?;
    let at = put_frame(out, text, Ok(plan));
    put_row_ctabs(plan.edition, flat, plan.records, out, at);
    Ok(plan)
}

// Writes one group at the start of a lent buffer, from its Sdec's text and the first `count` records of a flat table; answers its length.
pub fn write_rows(text: &[u8], flat: &[u8], count: usize, out: &mut [u8]) -> Measured
    ensures { GroupWritten text.now (table_of flat.now) count out.old result out.new }
{
    measured(put_rows(text, flat, count, out))
}
