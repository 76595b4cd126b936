// One call per datagram: it reads a payload and, if that is a fragment, offers the fragment to the table for the client.
#![tactic(auto)]

ghost use Rattle.std.specs.Prelude.{◌≡◌, ◌≤◌, length};
ghost use Rattle.table_rules.specs.Table.{table_of};
ghost use Rattle.table_receiver.specs.Receive.{arrival_of, receive_on, Leaves};

use client_reassembly::{Answer, Arrival};
use client_record::{Client, Flow};
use wire_datagram::reading;
use wire_datagram::reading::Refusal;
use wire_nops::Strictness;
use wire_reading::{Extent, Reading, Verdict};

// What became of a datagram that the reader takes.
#[derive(Clone, Copy)]
pub enum Received {
    // A datagram of its own. Its user data is in the payload, where the reading says.
    Datagram(Reading<Extent>),
    // A fragment, with what the table answered.
    Fragment(Result<Answer, client_reassembly::Refusal>),
}

// The fragment as the table takes it.
fn arrival_of(
    payload: &[u8],
    source: [u8; 4],
    destination: [u8; 4],
    time: u64,
    fragment: wire_area::Fragment,
) -> Arrival
    requires { 4 ≤ length payload.now }
    ensures { result ≡ arrival_of payload.now source destination time fragment }
{
    let flow = Flow {
        source,
        destination,
        source_port: number_octets::get_u16(payload, 0),
        destination_port: number_octets::get_u16(payload, 2),
    };
    Arrival {
        time,
        flow,
        identification: fragment.identification,
        offset: fragment.place,
        option_start: fragment.option_start,
        last: fragment.last,
    }
}

// Receives one datagram for client `k` at `time`, read plainly or strictly. What is no datagram meets document 01's refusals 1 to 4.
pub fn receive(
    records: &mut [Client],
    store: &mut [u8],
    k: usize,
    time: u64,
    source: [u8; 4],
    destination: [u8; 4],
    strictness: Strictness,
    payload: &[u8],
    out: &mut [u8],
) -> Result<Received, Refusal>
    ensures { Leaves (receive_on k (record { time = time; source = source; destination = destination; strictness = strictness; payload = payload.now }) out.old (table_of records.old store.old)) result records.new store.new out.new }
{
    let reading = reading::read(payload, source, destination, strictness)?;
    match reading.verdict {
        Verdict::Piece(fragment) => {
            let arrival = arrival_of(payload, source, destination, time, fragment);
            let start = fragment.start.0;
            let end = fragment.end.0;
            let answer = table_calls::offer(records, store, k, arrival, &payload[start..end], out);
            Ok(Received::Fragment(answer))
        }
        _ => Ok(Received::Datagram(reading)),
    }
}
