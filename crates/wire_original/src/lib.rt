// Rereading an original that was reassembled from fragments.
#![tactic(auto)]

ghost use Rattle.std.specs.Prelude.{◌≡◌, ◌≤◌, length, drop};
ghost use Rattle.wire_options.specs.Walk.{option_limit};
ghost use Rattle.wire_options.specs.Strict.{walk_by};
ghost use Rattle.wire_original.specs.Rereading.{original_optionless, original_faulty, rewalked, rereading, rereads, re_answer_of, re_refusal_number};

use number_offsets::OriginalOffset;
use wire_nops::Strictness;
use wire_options::walk;
use wire_options::walk::{Fault, Met};
use wire_reading::{Apc, Reading, Span, Verdict};

// The largest payload less a UDP header.
pub const ORIGINAL_LIMIT: usize = 65507;

// Bytes of an original, counted from its first user byte. A struct of its own, since calls that C can make take no generic struct.
#[repr(C)]
#[derive(Clone, Copy)]
pub struct OriginalExtent {
    pub from: OriginalOffset,
    pub to: OriginalOffset,
}

impl Span for OriginalExtent {
    ghost from = { λ extent. extent.from.0 };

    ghost to = { λ extent. extent.to.0 };

    fn start(self) -> usize {
        self.from.0
    }

    fn end(self) -> usize {
        self.to.0
    }
}

pub type Rereading = Reading<OriginalExtent>;

#[derive(Clone, Copy)]
pub enum RereadRefusal {
    OriginalTooLong,
    OptionStartPastEnd,
    // Nothing of such an original is delivered.
    UnsafeOption,
}

// The number that a host gets: document 01's.
impl From<RereadRefusal> for u32 {
    ghost from_gives = { λ refusal number. number ≡ re_refusal_number refusal };

    fn from(refusal: RereadRefusal) -> u32 {
        match refusal {
            RereadRefusal::OriginalTooLong => 2,
            RereadRefusal::UnsafeOption => 5,
            RereadRefusal::OptionStartPastEnd => 6,
        }
    }
}

// Reads a reassembled original whose options start at `option_start`, document 01's r.
pub fn reread(
    original: &[u8],
    option_start: OriginalOffset,
    strictness: Strictness,
) -> Result<Rereading, RereadRefusal>
    ensures { re_answer_of result ≡ rereading strictness original.now option_start.0 }
{
    let r = option_start.0;
    if ORIGINAL_LIMIT < original.len() {
        return Err(RereadRefusal::OriginalTooLong);
    }
    if original.len() < r {
        return Err(RereadRefusal::OptionStartPastEnd);
    }
    if original.len() == r {
        return Ok(optionless(option_start, Verdict::Bare));
    }
    match wire_surplus::start_of(&original[r..], r % 2 == 1, true) {
        Ok(at) => relisted(original, option_start, OriginalOffset(r + at), strictness),
        Err(unlisted) => Ok(optionless(option_start, Verdict::from(unlisted))),
    }
}

// The rereading whose option list starts at `from`.
fn relisted(
    original: &[u8],
    r: OriginalOffset,
    from: OriginalOffset,
    strictness: Strictness,
) -> Result<Rereading, RereadRefusal>
    requires { (r.0 ≤ from.0) × (from.0 ≤ length original.now) }
    ensures { re_answer_of result ≡ rewalked original.now r.0 from.0 (walk_by strictness option_limit 0 (drop from.0 original.now)) }
{
    let base = number_offsets::offset_of(from);
    let list = &original[from.0..];
    match walk::walk_list(list, base, walk::OPTION_LIMIT, strictness) {
        Ok(list) => Ok(Rereading {
            user: OriginalExtent {
                from: OriginalOffset(0),
                to: r,
            },
            verdict: Verdict::Read,
            options: OriginalExtent {
                from,
                to: OriginalOffset(original.len()),
            },
            count: list.count,
            fill: list.fill,
            apc: wire_reading::apc_of(original, 0, r.0, list.apcs),
        }),
        Err(met) => faulty(r, met),
    }
}

// A fault of the list. The offset where it was met counts from the UDP header of the original too.
fn faulty(r: OriginalOffset, met: Met) -> Result<Rereading, RereadRefusal>
    ensures { re_answer_of result ≡ original_faulty r.0 met.fault met.at }
{
    match met.fault {
        Fault::Unsafe => Err(RereadRefusal::UnsafeOption),
        _ => Ok(optionless(r, Verdict::from(met))),
    }
}

// A rereading that reports no option.
fn optionless(r: OriginalOffset, verdict: Verdict) -> Rereading
    ensures { rereads result ≡ original_optionless r.0 verdict }
{
    Rereading {
        user: OriginalExtent {
            from: OriginalOffset(0),
            to: r,
        },
        verdict,
        options: OriginalExtent {
            from: OriginalOffset(0),
            to: OriginalOffset(0),
        },
        count: 0,
        fill: 0,
        apc: Apc::Absent,
    }
}
