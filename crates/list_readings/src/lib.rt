// Listing a reading or a rereading as an encoded option list. Document 01, "Dockets and the writer".
#![tactic(auto)]

ghost use Rattle.std.specs.Prelude.{◌≡◌};
ghost use Rattle.list_options.specs.Listing.{ListedInto};
ghost use Rattle.list_readings.specs.Catalogue.{is_listed, walk_of_value};

use list_options::Listing;
use number_varint::Full;
use wire_reading::{Reading, Span, Verdict};

// Lists the options that a reading of `bytes` reports, or none where there are none to be listed. The bytes are a payload or an original.
pub fn list_reading<E: Span>(
    bytes: &[u8],
    reading: Reading<E>,
    buffer: &mut [u8],
) -> Result<Listing, Full>
    ensures { ListedInto
        (walk_of_value bytes.now reading.verdict (E.from reading.options) (E.to reading.options))
        buffer.old result buffer.new }
{
    let options = reading.options;
    if is_listed(reading.verdict, options, bytes.len()) {
        return list_options::list_options(&bytes[options.start()..options.end()], buffer);
    }
    list_options::list_options(&bytes[..0], buffer)
}

// Whether the verdict is "read" and the list lies within `size` bytes: a caller may have made the value up.
pub fn is_listed<E: Span>(verdict: Verdict, options: E, size: usize) -> bool
    ensures { result ≡ is_listed verdict (E.from options) (E.to options) size }
{
    wire_reading::is_read(verdict) && options.start() <= options.end() && options.end() <= size
}
