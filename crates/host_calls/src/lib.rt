// The library for C and Rust: the calls of include/wuraketozo.h under their names there. A slice is a pointer and a length in C. No
// call asks anything of the values of its arguments. `host_wire`, `host_options` and `host_limits` do the work of those that
// have no table.
#![tactic(auto)]

ghost use Rattle.std.specs.Prelude.{◌≡◌, []};
ghost use Rattle.wire_datagram.specs.Reading.{reading};
ghost use Rattle.wire_original.specs.Rereading.{rereading};
ghost use Rattle.list_readings.specs.Catalogue.{walk_of_value};
ghost use Rattle.list_writer.specs.Answer.{written, datagram_for};
ghost use Rattle.client_record.specs.Limits.{datagram_limit, client_limit};
ghost use Rattle.client_ledger.specs.History.{offering, advancing, accounting};
ghost use Rattle.table_rules.specs.Table.{table_of, reset_on, ask_on};
ghost use Rattle.table_receiver.specs.Receive.{receive_on};
ghost use Rattle.host_readings.specs.Reading.{host_reading};
ghost use Rattle.host_readings.specs.Listable.{verdict_for};
ghost use Rattle.host_readings.specs.Setting.{strictness_for};
ghost use Rattle.host_rereadings.specs.Rereading.{host_rereading};
ghost use Rattle.host_options.specs.Options.{next_in, renext_in};
ghost use Rattle.host_values.specs.Answer.{arrival_from};
ghost use Rattle.host_wire.specs.Left.{Lists, Writes};
ghost use Rattle.host_limits.specs.Layout.{record_size};
ghost use Rattle.host_limits.specs.Plans.{share_for};
ghost use Rattle.host_calls.specs.Left.{Leaves, Receives};

use client_reassembly::Arrival;
use client_record::Client;
use host_options::{OriginalOption, PacketOption};
use host_readings::Reading;
use host_rereadings::Rereading;
use host_values::{Address, Answer, Fragment, Listing, Received, Written};
use number_offsets::OriginalOffset;
use wire_original::OriginalExtent;
use wire_reading::Extent;

// ---- reading

// Reads one IPv4 payload, plainly if `strictness` is 0, else strictly.
#[unsafe(no_mangle)]
pub extern "C" fn wuraketozo_read(
    payload: &[u8],
    source: Address,
    destination: Address,
    strictness: u32,
) -> Reading
    ensures { result ≡ host_reading (reading (strictness_for strictness) payload.now source.octets destination.octets) }
{
    host_wire::read(payload, source, destination, strictness)
}

// Reads an original again that was put together from fragments, plainly or strictly.
#[unsafe(no_mangle)]
pub extern "C" fn wuraketozo_reread(
    original: &[u8],
    option_start: OriginalOffset,
    strictness: u32,
) -> Rereading
    ensures { result ≡ host_rereading (rereading (strictness_for strictness) original.now option_start.0) }
{
    host_wire::reread(original, option_start, strictness)
}

// ---- option lists and payloads

// Lists the options of a reading of `payload`, which is given by its verdict's number and its option list.
#[unsafe(no_mangle)]
pub extern "C" fn wuraketozo_list(
    payload: &[u8],
    verdict: u32,
    options: Extent,
    buffer: &mut [u8],
) -> Listing
    ensures { Lists (walk_of_value payload.now (verdict_for verdict) options.from.0 options.to.0) buffer.old result buffer.new }
{
    host_wire::list(payload, verdict, options, buffer)
}

// Lists the options of a rereading of `original`.
#[unsafe(no_mangle)]
pub extern "C" fn wuraketozo_relist(
    original: &[u8],
    verdict: u32,
    options: OriginalExtent,
    buffer: &mut [u8],
) -> Listing
    ensures { Lists (walk_of_value original.now (verdict_for verdict) options.from.0 options.to.0) buffer.old result buffer.new }
{
    host_wire::relist(original, verdict, options, buffer)
}

// The first option in `rest`, which is the option list of a reading of `payload`, or what remains of it behind an option.
#[unsafe(no_mangle)]
pub extern "C" fn wuraketozo_next(payload: &[u8], verdict: u32, rest: Extent) -> PacketOption
    ensures { result ≡ next_in payload.now (verdict_for verdict) rest }
{
    host_options::next(payload, verdict, rest)
}

// The same of a rereading of `original`.
#[unsafe(no_mangle)]
pub extern "C" fn wuraketozo_renext(
    original: &[u8],
    verdict: u32,
    rest: OriginalExtent,
) -> OriginalOption
    ensures { result ≡ renext_in original.now (verdict_for verdict) rest }
{
    host_options::renext(original, verdict, rest)
}

// Writes a whole payload.
#[unsafe(no_mangle)]
pub extern "C" fn wuraketozo_write(
    source: Address,
    destination: Address,
    source_port: u16,
    destination_port: u16,
    user: &[u8],
    list: &[u8],
    fill: u8,
    buffer: &mut [u8],
) -> Written
    ensures { Writes
        (written (datagram_for source.octets destination.octets source_port destination_port user.now fill) list.now buffer.old)
        result buffer.new }
{
    host_wire::write(
        source,
        destination,
        source_port,
        destination_port,
        user,
        list,
        fill,
        buffer,
    )
}

// ---- sizes

// The bytes of a record.
#[unsafe(no_mangle)]
pub extern "C" fn wuraketozo_record_size() -> usize
    ensures { result ≡ record_size }
{
    host_limits::record_size()
}

// The same under a name that has the number of the header's layout. The header and the wrapper for Rust refer to it, so that a host that was
// compiled for another layout does not link. The number goes up with every change of a struct or of a call's arguments.
#[unsafe(no_mangle)]
pub extern "C" fn wuraketozo_layout_7() -> usize
    ensures { result ≡ record_size }
{
    wuraketozo_record_size()
}

// The bytes of the store for a client of this plan; 0 if there is no such plan.
#[unsafe(no_mangle)]
pub extern "C" fn wuraketozo_share_size(plan: u64) -> usize
    ensures { result ≡ share_for plan }
{
    host_limits::share_size(plan)
}

// The bytes of the smallest out buffer.
#[unsafe(no_mangle)]
pub extern "C" fn wuraketozo_out_size() -> usize
    ensures { result ≡ datagram_limit }
{
    host_limits::out_size()
}

// The most clients of a table.
#[unsafe(no_mangle)]
pub extern "C" fn wuraketozo_client_limit() -> usize
    ensures { result ≡ client_limit }
{
    host_limits::client_limit()
}

// ---- the table

// Makes every record fresh, with the plan that it has.
#[unsafe(no_mangle)]
pub extern "C" fn wuraketozo_reset(records: &mut [Client], store: &[u8]) -> Answer
    ensures { Leaves (reset_on (table_of records.old store.now)) result records.new store.now [] }
{
    Answer::from(table_calls::reset(records, store))
}

// Offers a fragment for client `k`.
#[unsafe(no_mangle)]
pub extern "C" fn wuraketozo_offer(
    records: &mut [Client],
    store: &mut [u8],
    k: usize,
    fragment: Fragment,
    bytes: &[u8],
    out: &mut [u8],
) -> Answer
    ensures { Leaves (ask_on k (offering (arrival_from fragment) bytes.now out.old) (table_of records.old store.old)) result records.new store.new out.new }
{
    let arrival = Arrival::from(fragment);
    Answer::from(table_calls::offer(records, store, k, arrival, bytes, out))
}

// Moves the time of client `k` on.
#[unsafe(no_mangle)]
pub extern "C" fn wuraketozo_advance(
    records: &mut [Client],
    store: &[u8],
    k: usize,
    time: u64,
) -> Answer
    ensures { Leaves (ask_on k (advancing time) (table_of records.old store.now)) result records.new store.now [] }
{
    Answer::from(table_calls::advance(records, store, k, time))
}

// The account of client `k`.
#[unsafe(no_mangle)]
pub extern "C" fn wuraketozo_account(records: &[Client], store: &[u8], k: usize) -> Answer
    ensures { Leaves (ask_on k accounting (table_of records.now store.now)) result records.now store.now [] }
{
    Answer::from(table_calls::account(records, store, k))
}

// ---- one call for each datagram

// Reads a payload that arrived for client `k`, plainly or strictly, and, if it is a fragment, offers it.
#[unsafe(no_mangle)]
pub extern "C" fn wuraketozo_receive(
    records: &mut [Client],
    store: &mut [u8],
    k: usize,
    time: u64,
    source: Address,
    destination: Address,
    strictness: u32,
    payload: &[u8],
    out: &mut [u8],
) -> Received
    ensures { Receives (receive_on k (record { time = time; source = source.octets; destination = destination.octets; strictness = strictness_for strictness; payload = payload.now }) out.old (table_of records.old store.old)) result records.new store.new out.new }
{
    let from = source.octets;
    let to = destination.octets;
    let how = host_readings::strictness_for(strictness);
    let received = table_receiver::receive(records, store, k, time, from, to, how, payload, out);
    Received::from(received)
}
