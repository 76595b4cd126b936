// The writer of an unfragmented datagram with options. Document 01, "Dockets and the writer".
#![tactic(auto)]

ghost use Rattle.std.specs.Prelude.{◌≡◌, ◌++◌, ◌+◌, ◌%◌, ◌≤◌, length};
ghost use Rattle.list_entry.specs.Answer.{refusal_number as list_refusal_number};
ghost use Rattle.list_writer.specs.Answer.{Wrote, fits, written, datagram_for, refusal_number};
ghost use Rattle.list_wire.specs.Parts.{Laid, payload_from};
ghost use Rattle.list_writer.specs.Plain.{plain};

use list_encoding::check;
use number_offsets::UDP_HEADER;
use wire_datagram::reading::PAYLOAD_LIMIT;

mod header;

use header::Datagram;

// Why a payload can't be written: its list can't be taken, or it is too large.
#[derive(Clone, Copy)]
pub enum Refusal {
    Unreadable,
    Forbidden,
    TooLarge,
}

// What a list is refused for, its datagram is.
impl From<list_entry::Refusal> for Refusal {
    ghost from_gives = { λ of_list refusal. refusal_number refusal ≡ list_refusal_number of_list };

    fn from(of_list: list_entry::Refusal) -> Refusal {
        match of_list {
            list_entry::Refusal::Unreadable => Refusal::Unreadable,
            list_entry::Refusal::Forbidden => Refusal::Forbidden,
        }
    }
}

// The papers' number.
impl From<Refusal> for u32 {
    ghost from_gives = { λ refusal number. number ≡ refusal_number refusal };

    fn from(refusal: Refusal) -> u32 {
        match refusal {
            Refusal::Unreadable => 7,
            Refusal::Forbidden => 9,
            Refusal::TooLarge => 8,
        }
    }
}

// Writes a whole payload to the front of `buffer`: header, data, and an area with the options of the encoded list and `fill` zero bytes. The
// answer is the payload's length.
pub fn write(
    source: [u8; 4],
    destination: [u8; 4],
    source_port: u16,
    destination_port: u16,
    data: &[u8],
    list: &[u8],
    fill: u8,
    buffer: &mut [u8],
) -> Result<usize, Refusal>
    ensures { Wrote
        (written (datagram_for source destination source_port destination_port «data».now fill) list.now buffer.old)
        result buffer.new }
{
    let options = check::check(list)?;
    if fits(data.len(), options.size, fill, buffer.len()) {
        let datagram = Datagram {
            source,
            destination,
            source_port,
            destination_port,
            data,
        };
        return Ok(put_payload(&datagram, list, fill, buffer));
    }
    Err(Refusal::TooLarge)
}

// Whether a payload with `data` bytes of user data and `options` bytes of options is neither over the limit nor over `room`.
fn fits(data: usize, options: usize, fill: u8, room: usize) -> bool
    ensures { result ≡ fits (8 + «data» + («data» % 2 + 2 + (options + fill))) room }
{
    if PAYLOAD_LIMIT < data {
        return false;
    }
    if PAYLOAD_LIMIT < options {
        return false;
    }
    let total = UDP_HEADER + data + (data % 2 + 2 + (options + fill as usize));
    if PAYLOAD_LIMIT < total {
        return false;
    }
    total <= room
}

// A payload that fits, with the options of a list that can be read. The answer is its length.
fn put_payload(datagram: &Datagram, list: &[u8], fill: u8, buffer: &mut [u8]) -> usize
    requires { (length (payload_from (plain datagram.now) list.now fill) ≤ 65535)
        × (length (payload_from (plain datagram.now) list.now fill) ≤ length buffer.old) }
    ensures { Laid buffer.old 0 (payload_from (plain datagram.now) list.now fill) buffer.new result }
{
    let crc = list_wire::apc::crc_for(list, datagram.data);
    let size = UDP_HEADER + datagram.data.len();
    let end = list_area::put_blank(list, crc, fill, buffer, size);
    datagram.put(buffer);
    list_area::put_ocs(buffer, size, end);
    end
}
