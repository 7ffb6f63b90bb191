// A flat table of records, 51 bytes each.
ghost use Rattle.std.specs.Prelude.{◌≡◌};
ghost use Rattle.c_row.specs.Flat.{lent_rows};

use layout::size::ROW;

// How many records a table of so many bytes lends.
pub fn row_count(size: usize) -> usize
    ensures { result ≡ lent_rows size }
{
    size / ROW
}
