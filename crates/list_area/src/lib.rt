// The surplus area, laid over a buffer whose first byte is that of the UDP header.
#![tactic(auto)]

ghost use Rattle.std.specs.Prelude.{◌≡◌, ◌++◌, ◌+◌, ◌-◌, ◌%◌, ◌≤◌, length, drop, replicate};
ghost use Rattle.number_octets.specs.Octets.{octets, part, overlay};
ghost use Rattle.number_checksum.specs.Checksum.{word_sum, folded, sent};
ghost use Rattle.wire_reading.specs.Reading.{is_odd};
ghost use Rattle.list_entry.specs.Option.{read_option};
ghost use Rattle.list_wire.specs.Parts.{Laid, Passes, wire_read, wires_read, wires_listed, listed_bytes};

use list_encoding::check::COUNTS;
use list_entry::Entry;
use list_wire::wire;

// Where the next option stands in the list, and where the one before it ends in the buffer.
#[derive(Drop)]
struct Passed {
    next: usize,
    end: usize,
}

// The option checksum of the area from `at` to `end`, put in its place. It comes last: bytes that were just stored would have to be waited for.
pub fn put_ocs(buffer: &mut [u8], at: usize, end: usize)
    requires { (at + at % 2 + 2 ≤ end) × (end ≤ length buffer.old) × (end ≤ at + 65535) }
    ensures { buffer.new ≡ overlay buffer.old (at + at % 2)
        (octets 2 (sent (folded (end - at + word_sum (is_odd at) (part at (end - at) buffer.old))))) }
{
    let sum = number_checksum::add_block((end - at) as u64, &buffer[at..end], at % 2 == 1);
    number_octets::put_u16(buffer, at + at % 2, number_checksum::field(sum));
}

// The area of a datagram of `at` bytes with an option checksum of zero: pad, checksum, the options of the list, and the fill. The answer is where
// it ends.
pub fn put_blank(list: &[u8], crc: u32, fill: u8, buffer: &mut [u8], at: usize) -> usize
    requires { at + length (replicate (at % 2 + 2) 0 ++ listed_bytes crc list.now fill) ≤ length buffer.old }
    ensures { Laid buffer.old at (replicate (at % 2 + 2) 0 ++ listed_bytes crc list.now fill) buffer.new result }
{
    let start = put_start(buffer, at);
    let end = put_listed(list, crc, buffer, start);
    put_zeros(fill as usize, buffer, end)
}

// The pad, where the area starts at an odd offset, and an option checksum of zero.
fn put_start(buffer: &mut [u8], at: usize) -> usize
    requires { at + (at % 2 + 2) ≤ length buffer.old }
    ensures { Laid buffer.old at (replicate (at % 2 + 2) 0) buffer.new result }
{
    if at % 2 == 1 {
        buffer[at] = 0;
        number_octets::put_u16(buffer, at + 1, 0);
        return at + 3;
    }
    number_octets::put_u16(buffer, at, 0);
    at + 2
}

// The options of an encoded list.
fn put_listed(list: &[u8], crc: u32, buffer: &mut [u8], at: usize) -> usize
    requires { at + length (wires_listed crc list.now) ≤ length buffer.old }
    ensures { Laid buffer.old at (wires_listed crc list.now) buffer.new result }
{
    let number = list_entry::number_at(list, 0, COUNTS);
    match number {
        Some(count) => put_options(list, count.next, count.value as usize, crc, buffer, at),
        None => at,
    }
}

// `count` options of a list, from `start` on.
fn put_options(
    list: &[u8],
    start: usize,
    count: usize,
    crc: u32,
    buffer: &mut [u8],
    at: usize,
) -> usize
    requires { at + length (wires_read crc count (drop start list.now)) ≤ length buffer.old }
    ensures { Laid buffer.old at (wires_read crc count (drop start list.now)) buffer.new result }
{
    let mut from = start;
    let mut end = at;
    for _ in 0..count {
        let passed = put_entry(list, from, crc, buffer, end);
        from = passed.next;
        end = passed.end;
    }
    end
}

// The option that stands at `from`. Of what can't be read nothing is taken.
fn put_entry(list: &[u8], from: usize, crc: u32, buffer: &mut [u8], at: usize) -> Passed
    requires { at + length (wire_read crc (read_option (drop from list.now))) ≤ length buffer.old }
    ensures { Passes list.now from crc buffer.old at buffer.new result.next result.end }
{
    let Ok(found) = list_entry::entry_at(list, from) else {
        return Passed {
            next: from,
            end: at,
        };
    };
    match found {
        Entry::Fields {
            kind,
            first,
            second,
            next,
        } => Passed {
            next,
            end: wire::put_fields(kind, first, second, crc, buffer, at),
        },
        Entry::Body {
            kind,
            start,
            next,
            ..
        } => Passed {
            next,
            end: wire::put_option(kind, &list[start..next], buffer, at),
        },
    }
}

// `count` zero bytes.
fn put_zeros(count: usize, buffer: &mut [u8], at: usize) -> usize
    requires { at + count ≤ length buffer.old }
    ensures { Laid buffer.old at (replicate count 0) buffer.new result }
{
    buffer[at..at + count].fill(0);
    at + count
}
