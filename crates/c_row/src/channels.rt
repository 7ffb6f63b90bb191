// Source channels as numbers.
ghost use Rattle.std.specs.Prelude.{◌≡◌, map};
ghost use Rattle.c_row.specs.Rows.{channel};

use layout::record::SourceChannel;

// The numbers of sixteen source channels.
pub fn numbers(from: [SourceChannel; 16]) -> [u8; 16]
    ensures { map channel result ≡ from }
{
    from.map(|c| c.0)
}
