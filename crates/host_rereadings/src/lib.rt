// Rereadings as values of include/wuraketozo.h, and as much of one as its listing looks at. A refusal is 0, or document 01's number. What a value
// does not say is 0. Positions keep their types: an `OriginalExtent` is places in an original, a `PacketOffset` counts from its UDP header.
#![tactic(auto)]

ghost use Rattle.std.specs.Prelude.{◌≡◌};
ghost use Rattle.wire_original.specs.Rereading.{places, re_answer_of};
ghost use Rattle.host_rereadings.specs.Rereading.{unreread, rereading_from, host_rereading};
ghost use Rattle.host_rereadings.specs.Listable.{rereading_for};

use number_offsets::{OriginalOffset, PacketOffset};
use wire_original::{OriginalExtent, RereadRefusal};
use wire_reading::Apc;

// What `wuraketozo_reread` answers. A struct of its own beside `host_readings::Reading`, since calls that C can make answer no generic struct.
#[repr(C)]
#[derive(Clone, Copy)]
pub struct Rereading {
    pub refusal: u32,
    pub verdict: u32,
    pub user: OriginalExtent,
    pub options: OriginalExtent,
    pub count: usize,
    pub fill: usize,
    pub fault_at: PacketOffset,
    pub apc: u32,
}

fn no_places() -> OriginalExtent
    ensures { result ≡ places 0 0 }
{
    OriginalExtent {
        from: OriginalOffset(0),
        to: OriginalOffset(0),
    }
}

fn unreread(refusal: u32) -> Rereading
    ensures { result ≡ unreread refusal }
{
    let none = no_places();
    Rereading {
        refusal,
        verdict: 0,
        user: none,
        options: none,
        count: 0,
        fill: 0,
        fault_at: PacketOffset(0),
        apc: 0,
    }
}

impl From<wire_original::Rereading> for Rereading {
    ghost from_gives = { λ rereading value. value ≡ rereading_from rereading };

    fn from(rereading: wire_original::Rereading) -> Rereading {
        let verdict = rereading.verdict;
        Rereading {
            refusal: 0,
            verdict: u32::from(verdict),
            user: rereading.user,
            options: rereading.options,
            count: rereading.count,
            fill: rereading.fill,
            fault_at: host_readings::fault_offset(verdict),
            apc: u32::from(rereading.apc),
        }
    }
}

impl From<Result<wire_original::Rereading, RereadRefusal>> for Rereading {
    ghost from_gives = { λ outcome value. value ≡ host_rereading (re_answer_of outcome) };

    fn from(outcome: Result<wire_original::Rereading, RereadRefusal>) -> Rereading {
        match outcome {
            Ok(rereading) => Rereading::from(rereading),
            Err(refusal) => unreread(u32::from(refusal)),
        }
    }
}

// ---- to be listed

// As much of a rereading as its listing looks at.
pub fn rereading_for(number: u32, options: OriginalExtent) -> wire_original::Rereading
    ensures { result ≡ rereading_for number options }
{
    wire_original::Rereading {
        user: no_places(),
        verdict: host_readings::verdict_for(number),
        options,
        count: 0,
        fill: 0,
        apc: Apc::Absent,
    }
}
