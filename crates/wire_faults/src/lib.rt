// Where the fault of a verdict was met.
#![tactic(auto)]

ghost use Rattle.std.specs.Prelude.{◌≡◌};
ghost use Rattle.wire_reading.specs.Verdict.{fault_at};

use number_offsets::PacketOffset;
use wire_reading::Verdict;

// The offset that a verdict has, if it is a fault of the list.
pub fn fault_at(verdict: Verdict) -> Option<PacketOffset>
    ensures { result ≡ fault_at verdict }
{
    match verdict {
        Verdict::Malformed(at)
        | Verdict::Unsafe(at)
        | Verdict::FragData(at)
        | Verdict::Crowded(at)
        | Verdict::Tail(at)
        | Verdict::Padded(at) => Some(at),
        _ => None,
    }
}
