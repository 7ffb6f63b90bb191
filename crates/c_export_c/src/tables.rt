// Whole groups through flat tables: written from one, and read into one (document 01, "Writing and editing").
ghost use Rattle.layout.specs.Promises.{GroupWritten};
ghost use Rattle.c_export.specs.Crossing.{as_measured, as_counted};
ghost use Rattle.c_row.specs.Flat.{table_of, RowsRead};

use c_export::answer::{Count, Length};

// Writes one group at the start of a lent buffer, from its Sdec's text and the first `count` records of a flat table; answers its length.
#[unsafe(no_mangle)]
pub extern "C" fn casm_write(text: &[u8], flat: &[u8], count: usize, out: &mut [u8]) -> Length
    ensures { GroupWritten text.now (table_of flat.now) count out.old (as_measured result) out.new }
{
    c_export::tables::casm_write(text, flat, count, out)
}

// Fills a lent flat table with the records of a group, up to their count, and answers how many there are; later bytes are kept.
#[unsafe(no_mangle)]
pub extern "C" fn casm_records(body: &[u8], group: usize, flat: &mut [u8]) -> Count
    ensures { RowsRead body.now group flat.old (as_counted result) flat.new }
{
    c_export::tables::casm_records(body, group, flat)
}
