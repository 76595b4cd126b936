// The walk over the option list of a surplus area, where FRAG may lead (RFC 9868 section 11.4).
#![tactic(auto)]

ghost use Rattle.std.specs.Prelude.{◌≡◌, ◌+◌, ◌<◌, ◌≤◌, length, drop, get_or};
ghost use Rattle.wire_step.specs.Kinds.{frag};
ghost use Rattle.wire_step.specs.Step.{step_of};
ghost use Rattle.wire_area.specs.Area.{fields_of, fragment_of, behind_frag, led_by, area_of, area_answer};

use number_offsets::{OriginalOffset, PacketOffset};
use wire_nops::Strictness;
use wire_options::walk;
use wire_options::walk::{Fault, Listed, Met};
use wire_step::{FRAG, Step};

// The whole length of FRAG in the last piece.
const LAST_FRAG_SIZE: usize = 12;

// FRAG's fields: where the piece starts in this packet, and the others as they stand on the wire. `offset` and `option_start` count from
// the original's UDP header.
#[derive(Clone, Copy)]
pub struct Fields {
    pub start: PacketOffset,
    pub identification: u32,
    pub offset: u16,
    pub last: bool,
    pub option_start: u16,
}

// A fragment: where it belongs in the original, and where its bytes stand in the packet.
#[derive(Clone, Copy)]
pub struct Fragment {
    pub identification: u32,
    pub place: OriginalOffset,
    pub start: PacketOffset,
    pub end: PacketOffset,
    pub last: bool,
    pub option_start: OriginalOffset,
}

// What a list in which no fault is met comes to: its options, or a fragment.
#[derive(Clone, Copy)]
pub enum Area {
    Listed(Listed),
    Piece(Fragment),
}

// Walks the list that stands at packet offset `base`. `empty` says that the datagram has no user data.
pub fn walk_area(
    list: &[u8],
    base: PacketOffset,
    empty: bool,
    strictness: Strictness,
) -> Result<Area, Met>
    requires { base.0 + length list.now < 18446744073709551616 }
    ensures { result ≡ area_answer (area_of strictness empty base.0 list.now) }
{
    if wire_nops::is_padded(list, strictness) {
        return Err(Met {
            fault: Fault::Padded,
            at: PacketOffset(base.0 + wire_nops::NOP_LIMIT),
        });
    }
    let nops = wire_nops::leading_nops(list);
    if nops < list.len() && list[nops] == FRAG {
        return led(list, base, nops, empty, strictness);
    }
    let from = PacketOffset(base.0 + nops);
    let listed = walk::walk_list(&list[nops..], from, walk::OPTION_LIMIT, strictness)?;
    Ok(Area::Listed(listed))
}

// A list whose first option behind the NOPs has the kind of FRAG, which is where it is faulty.
fn led(
    list: &[u8],
    base: PacketOffset,
    nops: usize,
    empty: bool,
    strictness: Strictness,
) -> Result<Area, Met>
    requires { (nops < length list.now) × (get_or list.now nops 0 ≡ frag) × (base.0 + length list.now < 18446744073709551616) }
    ensures { result ≡ area_answer (led_by strictness empty list.now base.0 nops (step_of (drop nops list.now))) }
{
    let rest = &list[nops..];
    let Step::Found { size, .. } = wire_step::next(rest) else {
        return Err(Met {
            fault: Fault::Malformed,
            at: PacketOffset(base.0 + nops),
        });
    };
    let fields = fields_of(rest, size);
    behind_frag(list, base, nops, nops + size, empty, fields, strictness)
}

// The fields of a FRAG of `size` bytes.
fn fields_of(option: &[u8], size: usize) -> Fields
    requires { (10 ≤ length option.now) × (size ≤ length option.now) }
    ensures { (result ≡ fields_of size option.now) × (result.start.0 < 65536) }
{
    let last = size == LAST_FRAG_SIZE;
    let option_start = if last {
        number_octets::get_u16(option, 10)
    } else {
        8
    };
    Fields {
        start: PacketOffset(number_octets::get_u16(option, 2) as usize),
        identification: number_octets::get_u32(option, 4),
        offset: number_octets::get_u16(option, 8),
        last,
        option_start,
    }
}

// The fragment that FRAG's fields describe, if they pass its tests. FRAG ends `behind` bytes into a list of `size` bytes.
fn fragment_of(fields: Fields, base: PacketOffset, behind: usize, size: usize) -> Option<Fragment>
    requires { (behind ≤ size) × (size < 9223372036854775808) × (fields.start.0 < 65536) }
    ensures { result ≡ fragment_of fields base.0 behind size }
{
    let start = fields.start.0;
    if start < base.0 || start - base.0 < behind || size < start - base.0 {
        return None;
    }
    // A value before the origin of user data names no place.
    let place = number_offsets::place_of(fields.offset)?;
    let option_start = number_offsets::place_of(fields.option_start)?;
    Some(Fragment {
        identification: fields.identification,
        place,
        start: fields.start,
        end: PacketOffset(base.0 + size),
        last: fields.last,
        option_start,
    })
}

// What is behind FRAG, which stands `nops` bytes into the list and ends `behind` bytes into it. Mostly that is nothing, and no walk is started.
// Other options on a piece are walked for faults and dropped.
fn behind_frag(
    list: &[u8],
    base: PacketOffset,
    nops: usize,
    behind: usize,
    empty: bool,
    fields: Fields,
    strictness: Strictness,
) -> Result<Area, Met>
    requires { (nops ≤ behind) × (behind ≤ length list.now) × (fields.start.0 < 65536) × (base.0 + length list.now < 18446744073709551616) }
    ensures { result ≡ area_answer (behind_frag strictness empty list.now base.0 nops behind (fragment_of fields base.0 behind (length list.now))) }
{
    let at = PacketOffset(base.0 + nops);
    let Some(fragment) = fragment_of(fields, base, behind, list.len()) else {
        return Err(Met {
            fault: Fault::Malformed,
            at,
        });
    };
    if !empty {
        return Err(Met {
            fault: Fault::FragData,
            at,
        });
    }
    let end = fragment.start.0 - base.0;
    if end != behind {
        let from = PacketOffset(base.0 + behind);
        walk::walk_list(&list[behind..end], from, walk::OPTION_LIMIT - 1, strictness)?;
    }
    Ok(Area::Piece(fragment))
}
