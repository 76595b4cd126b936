// The walk over a list of options in which FRAG has no place: what is behind a leading FRAG, or the whole list where there is none.
ghost use Rattle.std.specs.Prelude.{◌≡◌, ◌+◌, ◌<◌, length};
ghost use Rattle.wire_nops.specs.Nops.{nops_of};
ghost use Rattle.wire_options.specs.Walk.{joined, walk_answer};
ghost use Rattle.wire_options.specs.Strict.{walk_by};
ghost use Rattle.wire_options.specs.Progress.{end_progress, nop_progress, progress_of};

use number_octets::zeros;
use number_offsets::PacketOffset;
use wire_nops::Strictness;
use wire_step::{APC, FRAG, Step};

// How many options besides NOP and EOL a list may have: a house rule.
pub const OPTION_LIMIT: usize = 32;

// What makes a list unreadable.
#[derive(Clone, Copy)]
pub enum Fault {
    Malformed,
    Unsafe,
    // FRAG in a datagram that has user data.
    FragData,
    Crowded,
    // A byte behind EOL that is not zero.
    Tail,
    // More NOPs in a row than strict reading takes.
    Padded,
}

// The values of a list's APC options: none, one value however often, or values that differ.
#[derive(Clone, Copy)]
pub enum Apcs {
    Absent,
    Same(u32),
    Different,
}

// What a readable list has: `count` options, the fill behind them, and what their APCs say.
#[derive(Clone, Copy)]
pub struct Listed {
    pub count: usize,
    pub fill: usize,
    pub apcs: Apcs,
}

// The fault met first, and where.
#[derive(Clone, Copy)]
pub struct Met {
    pub fault: Fault,
    pub at: PacketOffset,
}

// What a step of the walk comes to where it meets no fault.
#[derive(Drop)]
enum Progress {
    // The walk goes on, `size` bytes further.
    On {
        room: usize,
        size: usize,
    },
    // The same behind an APC. Most steps meet none, and the loop then has no APCs to join.
    Apc {
        room: usize,
        size: usize,
        value: u32,
    },
    Ended {
        fill: usize,
    },
}

// A fault, met so many bytes further on.
#[derive(Drop)]
struct Ahead(Fault, usize);

// Walks the list that stands at packet offset `base` and may have `room` options.
pub fn walk_list(
    list: &[u8],
    base: PacketOffset,
    room: usize,
    strictness: Strictness,
) -> Result<Listed, Met>
    requires { base.0 + length list.now < 18446744073709551616 }
    ensures { result ≡ walk_answer (base.0 + length list.now) (walk_by strictness room 0 list.now) }
{
    let mut at = 0;
    let mut left = room;
    let mut apcs = Apcs::Absent;
    while at < list.len() {
        let turn = progress_at(&list[at..], left, strictness);
        match turn {
            Ok(Progress::On { room, size }) => {
                at += size;
                left = room;
            }
            Ok(Progress::Apc { room, size, value }) => {
                at += size;
                left = room;
                apcs = join(apcs, value);
            }
            Ok(Progress::Ended { fill }) => {
                return Ok(Listed {
                    count: room - left,
                    fill,
                    apcs,
                });
            }
            Err(Ahead(fault, ahead)) => {
                return Err(Met {
                    fault,
                    at: PacketOffset(base.0 + at + ahead),
                });
            }
        }
    }
    Ok(Listed {
        count: room - left,
        fill: 0,
        apcs,
    })
}

// One step of the walk.
fn progress_at(rest: &[u8], room: usize, strictness: Strictness) -> Result<Progress, Ahead>
    ensures { result ≡ progress_of strictness room rest.now }
{
    let step = wire_step::next(rest);
    match step {
        Step::End => Ok(Progress::Ended { fill: 0 }),
        Step::Eol => end_at(rest),
        Step::Nop => nops_at(rest, room, strictness),
        Step::Found { kind, header, size } => {
            if kind == FRAG {
                return Err(Ahead(Fault::Malformed, 0));
            }
            if room == 0 {
                return Err(Ahead(Fault::Crowded, 0));
            }
            if kind == APC {
                let value = number_octets::get_u32(rest, header);
                return Ok(Progress::Apc {
                    room: room - 1,
                    size,
                    value,
                });
            }
            Ok(Progress::On {
                room: room - 1,
                size,
            })
        }
        Step::Malformed => Err(Ahead(Fault::Malformed, 0)),
        Step::Outlawed => Err(Ahead(Fault::Unsafe, 0)),
    }
}

// NOPs stand at the front: all in a row are passed at once. Padding is met at the one behind as many as there may be.
fn nops_at(rest: &[u8], room: usize, strictness: Strictness) -> Result<Progress, Ahead>
    ensures { result ≡ nop_progress strictness room (nops_of rest.now) }
{
    if wire_nops::is_padded(rest, strictness) {
        return Err(Ahead(Fault::Padded, wire_nops::NOP_LIMIT));
    }
    let nops = wire_nops::leading_nops(rest);
    Ok(Progress::On { room, size: nops })
}

// EOL stands at the front: with all behind it, it is the fill, which is zero bytes. A tail is met at the first other one.
fn end_at(rest: &[u8]) -> Result<Progress, Ahead>
    ensures { result ≡ end_progress rest.now }
{
    if zeros::all_zero(rest) {
        return Ok(Progress::Ended { fill: rest.len() });
    }
    let zeros = zeros::leading_zeros(rest);
    Err(Ahead(Fault::Tail, zeros))
}

// The APCs of a part of the list, and one behind them.
fn join(a: Apcs, w: u32) -> Apcs
    ensures { result ≡ joined a (Apcs.Same w) }
{
    match a {
        Apcs::Absent => Apcs::Same(w),
        Apcs::Same(v) if v == w => Apcs::Same(v),
        _ => Apcs::Different,
    }
}
