// What a reading says: the user data's extent, the verdict on the surplus area, the options and what the APCs say.
#![tactic(auto)]

ghost use Rattle.std.specs.Prelude.{◌≡◌, ℕ, ◌-◌, ◌≤◌, length, drop};
ghost use Rattle.number_octets.specs.Octets.{part};
ghost use Rattle.number_offsets.specs.Offsets.{udp_header};
ghost use Rattle.wire_area.specs.Area.{area_of};
ghost use Rattle.wire_surplus.specs.Surplus.{start_of};
ghost use Rattle.wire_reading.specs.Reading.{payload_limit, is_odd, optionless, verdict_of, unlisted_verdict, walked, no_data, started, is_read};
ghost use Rattle.wire_reading.specs.ByWalk.{apc_by};
ghost use Rattle.wire_reading.specs.Verdict.{verdict_says, apc_says};

use number_offsets::{PacketOffset, UDP_HEADER};
use wire_area::{Area, Fragment};
use wire_nops::Strictness;
use wire_options::walk::{Apcs, Fault, Met};
use wire_surplus::Unlisted;

// Bytes of a packet, counted from its UDP header.
#[repr(C)]
#[derive(Clone, Copy)]
pub struct Extent {
    pub from: PacketOffset,
    pub to: PacketOffset,
}

// Bytes between two positions of one kind.
pub trait Span: Copy {
    ghost from: { Self → ℕ };

    ghost to: { Self → ℕ };

    fn start(self) -> usize
        ensures { result ≡ from self };

    fn end(self) -> usize
        ensures { result ≡ to self };
}

impl Span for Extent {
    ghost from = { λ extent. extent.from.0 };

    ghost to = { λ extent. extent.to.0 };

    fn start(self) -> usize {
        self.from.0
    }

    fn end(self) -> usize {
        self.to.0
    }
}

// What the APC options say of the user data: none there, all right, or one that differs.
#[derive(Clone, Copy)]
pub enum Apc {
    Absent,
    Right,
    Wrong,
}

// The number that a host gets.
impl From<Apc> for u32 {
    ghost from_gives = { λ apc number. number ≡ (apc_says apc).number };

    fn from(apc: Apc) -> u32 {
        match apc {
            Apc::Absent => 0,
            Apc::Right => 1,
            Apc::Wrong => 2,
        }
    }
}

// The verdict on the surplus area, in document 01's words; `Bare` is its "none". In the order of the numbers that hosts get. A fault of the list
// has the offset where it was met.
#[derive(Clone, Copy)]
pub enum Verdict {
    Bare,
    Short,
    Pad,
    Unsummed,
    BadSum,
    Malformed(PacketOffset),
    Unsafe(PacketOffset),
    FragData(PacketOffset),
    Crowded(PacketOffset),
    Read,
    Piece(Fragment),
    Tail(PacketOffset),
    Padded(PacketOffset),
}

// An area that has no option list.
impl From<Unlisted> for Verdict {
    ghost from_gives = { λ unlisted verdict. verdict ≡ unlisted_verdict unlisted };

    fn from(unlisted: Unlisted) -> Verdict {
        match unlisted {
            Unlisted::Empty => Verdict::Bare,
            Unlisted::Short => Verdict::Short,
            Unlisted::Pad => Verdict::Pad,
            Unlisted::Unsummed => Verdict::Unsummed,
            Unlisted::BadSum => Verdict::BadSum,
        }
    }
}

// A fault of the list.
impl From<Met> for Verdict {
    ghost from_gives = { λ met verdict. verdict ≡ verdict_of met.fault met.at };

    fn from(met: Met) -> Verdict {
        match met.fault {
            Fault::Malformed => Verdict::Malformed(met.at),
            Fault::Unsafe => Verdict::Unsafe(met.at),
            Fault::FragData => Verdict::FragData(met.at),
            Fault::Crowded => Verdict::Crowded(met.at),
            Fault::Tail => Verdict::Tail(met.at),
            Fault::Padded => Verdict::Padded(met.at),
        }
    }
}

// The number that a host gets, in document 01's order.
impl From<Verdict> for u32 {
    ghost from_gives = { λ verdict number. number ≡ (verdict_says verdict).number };

    fn from(verdict: Verdict) -> u32 {
        match verdict {
            Verdict::Bare => 0,
            Verdict::Short => 1,
            Verdict::Pad => 2,
            Verdict::Unsummed => 3,
            Verdict::BadSum => 4,
            Verdict::Malformed(_) => 5,
            Verdict::Unsafe(_) => 6,
            Verdict::FragData(_) => 7,
            Verdict::Crowded(_) => 8,
            Verdict::Read => 9,
            Verdict::Piece(_) => 10,
            Verdict::Tail(_) => 11,
            Verdict::Padded(_) => 12,
        }
    }
}

// A reading of a packet or of an original: an `E` is bytes of the one or the other.
#[derive(Clone, Copy)]
pub struct Reading<E> {
    // The user data. It is to be delivered with every verdict but `Piece`.
    pub user: E,
    pub verdict: Verdict,
    // The option list with its fill. Empty, with no option, no fill and no APC, unless the verdict is `Read`.
    pub options: E,
    pub count: usize,
    pub fill: usize,
    pub apc: Apc,
}

// The reading of a payload that no refusal meets. `unused`: the UDP checksum is zero. Most payloads have no surplus area, and none is started.
pub fn accept(payload: &[u8], size: usize, unused: bool, strictness: Strictness) -> Reading<Extent>
    requires { (udp_header ≤ size) × (size ≤ length payload.now) × (length payload.now ≤ payload_limit) }
    ensures { result ≡ started strictness payload.now size (start_of (is_odd size) unused (drop size payload.now)) }
{
    if payload.len() == size {
        return optionless(size, Verdict::Bare);
    }
    match wire_surplus::start_of(&payload[size..], size % 2 == 1, unused) {
        Ok(at) => listed(payload, size, PacketOffset(size + at), strictness),
        Err(unlisted) => optionless(size, Verdict::from(unlisted)),
    }
}

// The reading whose option list starts at `from`.
fn listed(
    payload: &[u8],
    size: usize,
    from: PacketOffset,
    strictness: Strictness,
) -> Reading<Extent>
    requires { (udp_header ≤ size) × (size ≤ from.0) × (from.0 ≤ length payload.now) }
    ensures { result ≡ walked payload.now size from.0 (area_of strictness (no_data size) from.0 (drop from.0 payload.now)) }
{
    let list = &payload[from.0..];
    match wire_area::walk_area(list, from, size == UDP_HEADER, strictness) {
        Ok(Area::Listed(list)) => Reading {
            user: Extent {
                from: PacketOffset(UDP_HEADER),
                to: PacketOffset(size),
            },
            verdict: Verdict::Read,
            options: Extent {
                from,
                to: PacketOffset(payload.len()),
            },
            count: list.count,
            fill: list.fill,
            apc: apc_of(payload, UDP_HEADER, size, list.apcs),
        },
        Ok(Area::Piece(fragment)) => optionless(size, Verdict::Piece(fragment)),
        Err(met) => optionless(size, Verdict::from(met)),
    }
}

// What the APCs say of the user data, which stands at `from` to `to` of `bytes`. A CRC is computed only where an APC asks for it.
pub fn apc_of(bytes: &[u8], from: usize, to: usize, apcs: Apcs) -> Apc
    requires { (from ≤ to) × (to ≤ length bytes.now) }
    ensures { result ≡ apc_by (part from (to - from) bytes.now) apcs }
{
    match apcs {
        Apcs::Absent => Apc::Absent,
        Apcs::Same(value) => {
            if value == number_crc32c::crc32c(&bytes[from..to]) {
                Apc::Right
            } else {
                Apc::Wrong
            }
        }
        Apcs::Different => Apc::Wrong,
    }
}

// Only a reading with this verdict reports options.
pub fn is_read(verdict: Verdict) -> bool
    ensures { result ≡ is_read verdict }
{
    matches!(verdict, Verdict::Read)
}

// A reading that reports no option.
fn optionless(size: usize, verdict: Verdict) -> Reading<Extent>
    ensures { result ≡ optionless size verdict }
{
    Reading {
        user: Extent {
            from: PacketOffset(UDP_HEADER),
            to: PacketOffset(size),
        },
        verdict,
        options: Extent {
            from: PacketOffset(0),
            to: PacketOffset(0),
        },
        count: 0,
        fill: 0,
        apc: Apc::Absent,
    }
}
