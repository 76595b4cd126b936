// The CRC that the APCs of an option list carry.
ghost use Rattle.std.specs.Prelude.{◌≡◌, drop};
ghost use Rattle.number_crc32c.specs.Crc.{crc_of};
ghost use Rattle.list_wire.specs.Parts.{Sees, apcs_read, wires_listed};

use list_encoding::check::COUNTS;
use list_entry::Entry;
use wire_step::APC;

// Whether an option is an APC, and where the next one stands.
#[derive(Drop)]
struct Seen {
    next: usize,
    apc: bool,
}

// The CRC for the options of a list: that of the data, worked out only where an APC asks for it.
pub fn crc_for(list: &[u8], data: &[u8]) -> u32
    ensures { wires_listed result list.now ≡ wires_listed (crc_of «data».now) list.now }
{
    match list_entry::number_at(list, 0, COUNTS) {
        Some(number) if has_apc(list, number.next, number.value as usize) => {
            number_crc32c::crc32c(data)
        }
        _ => 0,
    }
}

// Whether an APC is among `count` options of a list, from `start` on.
fn has_apc(list: &[u8], start: usize, count: usize) -> bool
    ensures { result ≡ apcs_read count (drop start list.now) }
{
    let mut from = start;
    for _ in 0..count {
        let seen = look(list, from);
        if seen.apc {
            return true;
        }
        from = seen.next;
    }
    false
}

// The option that stands at `from`. What can't be read is passed over.
fn look(list: &[u8], from: usize) -> Seen
    ensures { Sees list.now from result.next result.apc }
{
    let Ok(found) = list_entry::entry_at(list, from) else {
        return Seen {
            next: from,
            apc: false,
        };
    };
    match found {
        Entry::Fields { kind, next, .. } => Seen {
            next,
            apc: kind == APC,
        },
        Entry::Body { next, .. } => Seen { next, apc: false },
    }
}
