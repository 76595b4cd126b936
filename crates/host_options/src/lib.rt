// The options of a reading or a rereading one by one, as values of include/wuraketozo.h (document 02, R-7). What a value does not say is 0.
#![tactic(auto)]

ghost use Rattle.std.specs.Prelude.{◌≡◌};
ghost use Rattle.host_readings.specs.Listable.{verdict_for};
ghost use Rattle.host_options.specs.Options.{no_packet_option, packet_option, next_in, no_original_option, original_option, renext_in, Fits};

use number_offsets::{OriginalOffset, PacketOffset};
use wire_offsets::Found;
use wire_original::OriginalExtent;
use wire_reading::Extent;

// What `wuraketozo_next` answers: an option of a payload, where it stands. The next one is looked for behind its body.
#[repr(C)]
#[derive(Clone, Copy)]
pub struct PacketOption {
    pub found: u32,
    pub kind: u32,
    pub offset: PacketOffset,
    pub body: Extent,
}

// What `wuraketozo_renext` answers: an option of an original. Its offset counts from the UDP header, its body's places from the first user byte.
// A struct of its own, and functions of their own for it, since calls that C can make answer no generic struct.
#[repr(C)]
#[derive(Clone, Copy)]
pub struct OriginalOption {
    pub found: u32,
    pub kind: u32,
    pub offset: PacketOffset,
    pub body: OriginalExtent,
}

// The first option in `rest`, which is the option list of a reading of `payload`, or what remains of it behind an option.
pub fn next(payload: &[u8], verdict: u32, rest: Extent) -> PacketOption
    ensures { result ≡ next_in payload.now (verdict_for verdict) rest }
{
    if list_readings::is_listed(host_readings::verdict_for(verdict), rest, payload.len()) {
        let from = rest.from.0;
        return packet_option(from, wire_offsets::next_option(&payload[from..rest.to.0]));
    }
    no_packet_option()
}

// The first option in `rest`, which is the option list of a rereading of `original`, or what remains of it behind an option.
pub fn renext(original: &[u8], verdict: u32, rest: OriginalExtent) -> OriginalOption
    ensures { result ≡ renext_in original.now (verdict_for verdict) rest }
{
    if list_readings::is_listed(host_readings::verdict_for(verdict), rest, original.len()) {
        let from = rest.from.0;
        return original_option(from, wire_offsets::next_option(&original[from..rest.to.0]));
    }
    no_original_option()
}

// An option of a list that starts `from` bytes into the payload.
fn packet_option(from: usize, next: Option<Found>) -> PacketOption
    requires { Fits from next }
    ensures { result ≡ packet_option from next }
{
    match next {
        Some(found) => {
            let place = from + found.at;
            let body = place + found.header;
            let end = place + found.size;
            PacketOption {
                found: 1,
                kind: u32::from(found.kind),
                offset: PacketOffset(place),
                body: Extent {
                    from: PacketOffset(body),
                    to: PacketOffset(end),
                },
            }
        }
        None => no_packet_option(),
    }
}

// An option of a list that starts `from` bytes into the original.
fn original_option(from: usize, next: Option<Found>) -> OriginalOption
    requires { Fits from next }
    ensures { result ≡ original_option from next }
{
    match next {
        Some(found) => {
            let place = from + found.at;
            let body = place + found.header;
            let end = place + found.size;
            OriginalOption {
                found: 1,
                kind: u32::from(found.kind),
                offset: number_offsets::offset_of(OriginalOffset(place)),
                body: OriginalExtent {
                    from: OriginalOffset(body),
                    to: OriginalOffset(end),
                },
            }
        }
        None => no_original_option(),
    }
}

fn no_packet_option() -> PacketOption
    ensures { result ≡ no_packet_option }
{
    PacketOption {
        found: 0,
        kind: 0,
        offset: PacketOffset(0),
        body: Extent {
            from: PacketOffset(0),
            to: PacketOffset(0),
        },
    }
}

fn no_original_option() -> OriginalOption
    ensures { result ≡ no_original_option }
{
    OriginalOption {
        found: 0,
        kind: 0,
        offset: PacketOffset(0),
        body: OriginalExtent {
            from: OriginalOffset(0),
            to: OriginalOffset(0),
        },
    }
}
