// Readings as values of include/wuraketozo.h, and as much of one as its listing looks at. A refusal is 0, or document 01's number. What a value
// does not say is 0. Positions keep their types: an `Extent` is bytes of a payload, a `PacketOffset` counts from a UDP header, an `OriginalOffset` is
// a place in an original.
#![tactic(auto)]

ghost use Rattle.std.specs.Prelude.{◌≡◌};
ghost use Rattle.wire_reading.specs.Verdict.{fault_at};
ghost use Rattle.wire_datagram.specs.Reading.{answer_of};
ghost use Rattle.wire_reading.specs.Reading.{extent};
ghost use Rattle.host_readings.specs.Reading.{offset_or, no_fragment, fragment_in, unread, reading_from, host_reading};
ghost use Rattle.host_readings.specs.Listable.{verdict_for, reading_for};
ghost use Rattle.host_readings.specs.Setting.{strictness_for};

use number_offsets::{OriginalOffset, PacketOffset};
use wire_datagram::reading::Refusal;
use wire_nops::Strictness;
use wire_reading::{Apc, Extent, Verdict};

// What `wuraketozo_read` answers.
#[repr(C)]
#[derive(Clone, Copy)]
pub struct Reading {
    pub refusal: u32,
    pub verdict: u32,
    pub user: Extent,
    pub options: Extent,
    pub count: usize,
    pub fill: usize,
    // Behind the pairs, so that the compiler stores them as pairs, as hosts load them.
    pub fault_at: PacketOffset,
    pub apc: u32,
    pub identification: u32,
    pub place: OriginalOffset,
    pub part: Extent,
    pub option_start: OriginalOffset,
    pub last: u32,
}

// The number of a verdict with which options are listed.
const READ: u32 = 9;

// How a host asks to read: 0 is plain, any other number strict.
pub fn strictness_for(number: u32) -> Strictness
    ensures { result ≡ strictness_for number }
{
    if number == 0 {
        return Strictness::Plain;
    }
    Strictness::Strict
}

// The offset where a fault was met, 0 where there is none.
pub fn fault_offset(verdict: Verdict) -> PacketOffset
    ensures { result ≡ offset_or (fault_at verdict) }
{
    wire_faults::fault_at(verdict).unwrap_or(PacketOffset(0))
}

fn no_fragment() -> wire_area::Fragment
    ensures { result ≡ no_fragment }
{
    wire_area::Fragment {
        identification: 0,
        place: OriginalOffset(0),
        start: PacketOffset(0),
        end: PacketOffset(0),
        last: false,
        option_start: OriginalOffset(0),
    }
}

// The fragment of a verdict, all 0 where there is none.
fn fragment_in(verdict: Verdict) -> wire_area::Fragment
    ensures { result ≡ fragment_in verdict }
{
    match verdict {
        Verdict::Piece(fragment) => fragment,
        _ => no_fragment(),
    }
}

fn no_bytes() -> Extent
    ensures { result ≡ extent 0 0 }
{
    Extent {
        from: PacketOffset(0),
        to: PacketOffset(0),
    }
}

// A refusal, or with 0 the reading that says nothing.
pub fn unread(refusal: u32) -> Reading
    ensures { result ≡ unread refusal }
{
    let none = no_bytes();
    Reading {
        refusal,
        verdict: 0,
        user: none,
        options: none,
        count: 0,
        fill: 0,
        fault_at: PacketOffset(0),
        apc: 0,
        identification: 0,
        place: OriginalOffset(0),
        part: none,
        option_start: OriginalOffset(0),
        last: 0,
    }
}

impl From<wire_reading::Reading<Extent>> for Reading {
    ghost from_gives = { λ reading value. value ≡ reading_from reading };

    fn from(reading: wire_reading::Reading<Extent>) -> Reading {
        let verdict = reading.verdict;
        let fragment = fragment_in(verdict);
        Reading {
            refusal: 0,
            verdict: u32::from(verdict),
            user: reading.user,
            options: reading.options,
            count: reading.count,
            fill: reading.fill,
            fault_at: fault_offset(verdict),
            apc: u32::from(reading.apc),
            identification: fragment.identification,
            place: fragment.place,
            part: Extent {
                from: fragment.start,
                to: fragment.end,
            },
            option_start: fragment.option_start,
            last: u32::from(fragment.last),
        }
    }
}

impl From<Result<wire_reading::Reading<Extent>, Refusal>> for Reading {
    ghost from_gives = { λ outcome value. value ≡ host_reading (answer_of outcome) };

    fn from(outcome: Result<wire_reading::Reading<Extent>, Refusal>) -> Reading {
        match outcome {
            Ok(reading) => Reading::from(reading),
            Err(refusal) => unread(u32::from(refusal)),
        }
    }
}

// ---- to be listed

pub fn verdict_for(number: u32) -> Verdict
    ensures { result ≡ verdict_for number }
{
    if number == READ {
        return Verdict::Read;
    }
    Verdict::Bare
}

// As much of a reading as its listing looks at: the verdict's number and the option list.
pub fn reading_for(number: u32, options: Extent) -> wire_reading::Reading<Extent>
    ensures { result ≡ reading_for number options }
{
    wire_reading::Reading {
        user: no_bytes(),
        verdict: verdict_for(number),
        options,
        count: 0,
        fill: 0,
        apc: Apc::Absent,
    }
}
