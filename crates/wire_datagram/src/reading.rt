// The reading of a payload: refusals in order, and what `wire_reading` says of a payload that none meets.
ghost use Rattle.std.specs.Prelude.{◌≡◌, ◌≤◌, length};
ghost use Rattle.wire_datagram.specs.Reading.{pseudo_header, udp_sum, reading, answer_of, refusal_number};
ghost use Rattle.wire_datagram.specs.Parts.{outcome_of};
ghost use Rattle.wire_datagram.specs.Sums.{Begins};

use crate::parts;
use crate::parts::Parts;
use number_offsets::UDP_HEADER;
use wire_nops::Strictness;
use wire_reading::{Extent, Reading};

// An IPv4 packet of 65,535 bytes less its header.
pub const PAYLOAD_LIMIT: usize = 65515;

// UDP's protocol number.
const UDP: u64 = 17;

#[derive(Clone, Copy)]
pub enum Refusal {
    PayloadTooShort,
    PayloadTooLong,
    LengthOutOfRange,
    ChecksumWrong,
}

// The number that a host gets: document 01's.
impl From<Refusal> for u32 {
    ghost from_gives = { λ refusal number. number ≡ refusal_number refusal };

    fn from(refusal: Refusal) -> u32 {
        match refusal {
            Refusal::PayloadTooShort => 1,
            Refusal::PayloadTooLong => 2,
            Refusal::LengthOutOfRange => 3,
            Refusal::ChecksumWrong => 4,
        }
    }
}

// Reads one IPv4 payload.
pub fn read(
    payload: &[u8],
    source: [u8; 4],
    destination: [u8; 4],
    strictness: Strictness,
) -> Result<Reading<Extent>, Refusal>
    ensures { answer_of result ≡ reading strictness payload.now source destination }
{
    parts::outcome_of(examine(payload, source, destination, strictness))
}

// The same, in parts.
pub fn examine(
    payload: &[u8],
    source: [u8; 4],
    destination: [u8; 4],
    strictness: Strictness,
) -> Result<Parts, Refusal>
    ensures { answer_of (outcome_of result) ≡ reading strictness payload.now source destination }
{
    if payload.len() < UDP_HEADER {
        return Err(Refusal::PayloadTooShort);
    }
    if PAYLOAD_LIMIT < payload.len() {
        return Err(Refusal::PayloadTooLong);
    }
    let size = number_octets::get_u16(payload, 4) as usize;
    if size < UDP_HEADER || payload.len() < size {
        return Err(Refusal::LengthOutOfRange);
    }
    let checksum = number_octets::get_u16(payload, 6);
    if checksum != 0 && udp_sum(&payload[..size], source, destination) != 65535 {
        return Err(Refusal::ChecksumWrong);
    }
    let reading = wire_reading::accept(payload, size, checksum == 0, strictness);
    Ok(Parts::from(reading))
}

// The sum over the pseudo-header and a datagram.
fn udp_sum(datagram: &[u8], source: [u8; 4], destination: [u8; 4]) -> u16
    requires { length datagram.now ≤ 65535 }
    ensures { result ≡ udp_sum (pseudo_header source destination (length datagram.now)) datagram.now }
{
    number_checksum::add_block(
        pseudo_sum(source, destination, datagram.len()),
        datagram,
        false,
    )
}

// The pseudo-header of a datagram of `size` bytes as a sum that is not folded yet, for the reader and for the writer.
pub fn pseudo_sum(source: [u8; 4], destination: [u8; 4], size: usize) -> u64
    requires { size ≤ 65535 }
    ensures begins { Begins result (pseudo_header source destination size) }
    ensures upper_bound { result ≤ 17179869184 }
{
    let addresses = number_octets::get_u32(&source, 0) as u64
        + number_octets::get_u32(&destination, 0) as u64;
    addresses + UDP + size as u64
}
