// The calls of include/wuraketozo.h that have no table: reading, listing, writing; those for one option are in `host_options`. `host_calls` exports
// each under its name there, with the same contract. No call asks anything of the values of its arguments.
#![tactic(auto)]

ghost use Rattle.std.specs.Prelude.{◌≡◌};
ghost use Rattle.wire_datagram.specs.Reading.{reading};
ghost use Rattle.wire_original.specs.Rereading.{rereading};
ghost use Rattle.list_readings.specs.Catalogue.{walk_of_value};
ghost use Rattle.list_writer.specs.Answer.{written, datagram_for};
ghost use Rattle.host_readings.specs.Reading.{host_reading};
ghost use Rattle.host_readings.specs.Listable.{verdict_for};
ghost use Rattle.host_readings.specs.Setting.{strictness_for};
ghost use Rattle.host_rereadings.specs.Rereading.{host_rereading};
ghost use Rattle.host_wire.specs.Left.{Lists, Writes};

use host_readings::Reading;
use host_rereadings::Rereading;
use host_values::{Address, Listing, Written};
use number_offsets::OriginalOffset;
use wire_datagram::{parts, reading};
use wire_original::OriginalExtent;
use wire_reading::Extent;

// ---- reading

// Reads one IPv4 payload, plainly if `strictness` is 0, else strictly.
pub fn read(payload: &[u8], source: Address, destination: Address, strictness: u32) -> Reading
    ensures { result ≡ host_reading (reading (strictness_for strictness) payload.now source.octets destination.octets) }
{
    let from = source.octets;
    let to = destination.octets;
    let how = host_readings::strictness_for(strictness);
    Reading::from(parts::outcome_of(reading::examine(payload, from, to, how)))
}

// Reads an original again that was put together from fragments, plainly or strictly.
pub fn reread(original: &[u8], option_start: OriginalOffset, strictness: u32) -> Rereading
    ensures { result ≡ host_rereading (rereading (strictness_for strictness) original.now option_start.0) }
{
    Rereading::from(wire_original::reread(
        original,
        option_start,
        host_readings::strictness_for(strictness),
    ))
}

// ---- option lists and payloads

// Lists the options of a reading of `payload`, which is given by its verdict's number and its option list.
pub fn list(payload: &[u8], verdict: u32, options: Extent, buffer: &mut [u8]) -> Listing
    ensures { Lists (walk_of_value payload.now (verdict_for verdict) options.from.0 options.to.0) buffer.old result buffer.new }
{
    let reading = host_readings::reading_for(verdict, options);
    Listing::from(list_readings::list_reading(payload, reading, buffer))
}

// Lists the options of a rereading of `original`.
pub fn relist(original: &[u8], verdict: u32, options: OriginalExtent, buffer: &mut [u8]) -> Listing
    ensures { Lists (walk_of_value original.now (verdict_for verdict) options.from.0 options.to.0) buffer.old result buffer.new }
{
    let rereading = host_rereadings::rereading_for(verdict, options);
    Listing::from(list_readings::list_reading(original, rereading, buffer))
}

// Writes a whole payload.
pub fn write(
    source: Address,
    destination: Address,
    source_port: u16,
    destination_port: u16,
    user: &[u8],
    list: &[u8],
    fill: u8,
    buffer: &mut [u8],
) -> Written
    ensures { Writes
        (written (datagram_for source.octets destination.octets source_port destination_port user.now fill) list.now buffer.old)
        result buffer.new }
{
    let from = source.octets;
    let to = destination.octets;
    Written::from(list_writer::write(
        from,
        to,
        source_port,
        destination_port,
        user,
        list,
        fill,
        buffer,
    ))
}
