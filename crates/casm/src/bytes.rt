// A record by its bytes: how a caller makes one of either edition from the bytes that it holds, its Cntt and the Cntt's position, and sees it as these.
ghost use Rattle.layout.specs.Promises.{RecordMade, EditionTold, BytesTold};

use layout::edition::Edition;
use layout::record::{Record, SecondTable};
use layout::size::SECOND_RECORD;

// The record of an edition, of its bytes, a second table and a position, whatever they hold; nothing is judged.
// A record of the first edition holds the first 26 of the bytes; one of the second has no Cntt.
pub fn record_of(
    edition: Edition,
    b: [u8; SECOND_RECORD],
    second: SecondTable,
    position: u8,
) -> Record
    ensures { RecordMade edition b second position result }
{
    read_record::made::record_of(edition, &b, second, position)
}

// The edition of a record.
pub fn edition_of(r: Record) -> Edition
    ensures { EditionTold r result }
{
    read_record::held::edition_of(r)
}

// The bytes of a record, with 00 behind those that its edition holds.
pub fn bytes_of(r: Record) -> [u8; SECOND_RECORD]
    ensures { BytesTold r result }
{
    read_record::bytes::bytes_of(r)
}
