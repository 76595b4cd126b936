// The parts of a reading, for the way from one call to another: two words that stand side by side in a reading stand apart here. A processor hands
// a word that was just stored on to a load of that word, but not two words to a load of both.
ghost use Rattle.std.specs.Prelude.{◌≡◌};
ghost use Rattle.wire_datagram.specs.Parts.{gathered, outcome_of};

use crate::reading::Refusal;
use number_offsets::PacketOffset;
use wire_reading::{Apc, Extent, Reading, Verdict};

#[derive(Clone, Copy)]
pub struct Parts {
    pub user_from: PacketOffset,
    pub options_from: PacketOffset,
    pub count: usize,
    pub user_to: PacketOffset,
    pub options_to: PacketOffset,
    pub fill: usize,
    pub apc: Apc,
    pub verdict: Verdict,
}

impl From<Reading<Extent>> for Parts {
    ghost from_gives = { λ reading parts. gathered parts ≡ reading };

    fn from(reading: Reading<Extent>) -> Parts {
        Parts {
            user_from: reading.user.from,
            options_from: reading.options.from,
            count: reading.count,
            user_to: reading.user.to,
            options_to: reading.options.to,
            fill: reading.fill,
            apc: reading.apc,
            verdict: reading.verdict,
        }
    }
}

impl From<Parts> for Reading<Extent> {
    ghost from_gives = { λ parts reading. reading ≡ gathered parts };

    fn from(parts: Parts) -> Reading<Extent> {
        Reading {
            user: Extent {
                from: parts.user_from,
                to: parts.user_to,
            },
            verdict: parts.verdict,
            options: Extent {
                from: parts.options_from,
                to: parts.options_to,
            },
            count: parts.count,
            fill: parts.fill,
            apc: parts.apc,
        }
    }
}

pub fn outcome_of(examined: Result<Parts, Refusal>) -> Result<Reading<Extent>, Refusal>
    ensures { result ≡ outcome_of examined }
{
    examined.map(Reading::from)
}
