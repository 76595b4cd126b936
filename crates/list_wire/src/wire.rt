// Options on the wire, laid over a buffer.
ghost use Rattle.std.specs.Prelude.{◌≡◌, ◌+◌, ◌≤◌, length};
ghost use Rattle.number_octets.specs.Octets.{overlay};
ghost use Rattle.list_entry.specs.Option.{longest_body, item_of};
ghost use Rattle.list_encoding.specs.Wire.{whole_length, fields_on_wire};
ghost use Rattle.list_payload.specs.Payload.{wire_of};
ghost use Rattle.list_wire.specs.Parts.{Laid, head_of, field_body};

use list_encoding::check;
use list_encoding::check::LONGEST_SHORT_BODY;

// The length byte that says that the length stands in the two bytes behind it.
const EXTENDED: u8 = 255;

// The kind and the length of an option whose body has `size` bytes. The answer is where the body starts.
fn put_head(kind: u8, size: usize, buffer: &mut [u8], at: usize) -> usize
    requires { (size ≤ longest_body) × (at + whole_length size ≤ length buffer.old) }
    ensures { Laid buffer.old at (head_of kind size) buffer.new result }
{
    if size <= LONGEST_SHORT_BODY {
        buffer[at] = kind;
        buffer[at + 1] = (size + 2) as u8;
        return at + 2;
    }
    buffer[at] = kind;
    buffer[at + 1] = EXTENDED;
    number_octets::put_u16(buffer, at + 2, (size + 4) as u16);
    at + 4
}

// An option with a body as it stands. The answer is where the option ends.
pub fn put_option(kind: u8, body: &[u8], buffer: &mut [u8], at: usize) -> usize
    requires { (length body.now ≤ longest_body) × (at + whole_length (length body.now) ≤ length buffer.old) }
    ensures { Laid buffer.old at (wire_of (item_of kind body.now)) buffer.new result }
{
    let start = put_head(kind, body.len(), buffer, at);
    number_octets::copy(body, buffer, start);
    start + body.len()
}

// An option with the fields of its kind; an APC has the CRC.
pub fn put_fields(
    kind: u8,
    first: u32,
    second: u32,
    crc: u32,
    buffer: &mut [u8],
    at: usize,
) -> usize
    requires { at + whole_length (fields_on_wire kind) ≤ length buffer.old }
    ensures { Laid buffer.old at (wire_of (item_of kind (field_body kind first second crc))) buffer.new result }
{
    let size = check::fields_length(kind);
    let start = put_head(kind, size, buffer, at);
    put_body(kind, first, second, crc, buffer, start);
    start + size
}

// The fields alone.
fn put_body(kind: u8, first: u32, second: u32, crc: u32, buffer: &mut [u8], at: usize)
    requires { at + fields_on_wire kind ≤ length buffer.old }
    ensures { buffer.new ≡ overlay buffer.old at (field_body kind first second crc) }
{
    match kind {
        2 => number_octets::put_u32(buffer, at, crc),
        4 => number_octets::put_u16(buffer, at, (first % 65536) as u16),
        5 => {
            number_octets::put_u16(buffer, at, (first % 65536) as u16);
            buffer[at + 2] = (second % 256) as u8;
        }
        6 | 7 => number_octets::put_u32(buffer, at, first),
        8 => {
            number_octets::put_u32(buffer, at, first);
            number_octets::put_u32(buffer, at + 4, second);
        }
        _ => {}
    }
}
