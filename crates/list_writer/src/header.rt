// UDP header and user data, laid over the front of a buffer.
ghost use Rattle.std.specs.Prelude.{[], ◌∷◌, ◌+◌, ◌≤◌, length, ◌≡◌};

use number_offsets::UDP_HEADER;

// Where the checksum stands.
const CHECKSUM: usize = 6;

// Ports and user data, with the addresses that the checksum covers.
#[derive(Clone, Copy)]
pub struct Datagram<'a> {
    pub source: [u8; 4],
    pub destination: [u8; 4],
    pub source_port: u16,
    pub destination_port: u16,
    pub data: &'a [u8],
    ghost fits: { 8 + length «data».now ≤ 65535 },
}

impl Datagram<'_> {
    ghost use Rattle.number_octets.specs.Octets.{octets};
    ghost use Rattle.wire_datagram.specs.Reading.{pseudo_header, udp_sum};
    ghost use Rattle.list_payload.specs.Payload.{datagram_with};
    ghost use Rattle.list_wire.specs.Parts.{Laid, summed};
    ghost use Rattle.list_writer.specs.Plain.{plain};

    // Header and data, with the UDP checksum.
    pub fn put(&self, buffer: &mut [u8])
        requires { 8 + length self.now.«data».now ≤ length buffer.old }
        ensures { Laid buffer.old 0 (summed (plain self.now)) buffer.new (8 + length self.now.«data».now) }
    {
        self.put_fields(number_checksum::field(self.sum()), buffer)
    }

    // The sum over the pseudo-header and the datagram with a checksum of zero. It is taken from what is handed over: bytes that were just stored
    // would have to be waited for.
    fn sum(&self) -> u16
        ensures { result ≡ udp_sum (pseudo_header self.now.source self.now.destination (8 + length self.now.«data».now))
            (datagram_with (plain self.now) (0 ∷ 0 ∷ [])) }
    {
        let size = UDP_HEADER + self.data.len();
        let pseudo = wire_datagram::reading::pseudo_sum(self.source, self.destination, size);
        let header = u64::from(self.source_port) + u64::from(self.destination_port) + size as u64;
        number_checksum::add_block(pseudo + header, self.data, false)
    }

    // Header and data with a given checksum.
    fn put_fields(&self, checksum: u16, buffer: &mut [u8])
        requires { 8 + length self.now.«data».now ≤ length buffer.old }
        ensures { Laid buffer.old 0 (datagram_with (plain self.now) (octets 2 checksum)) buffer.new (8 + length self.now.«data».now) }
    {
        number_octets::put_u16(buffer, 0, self.source_port);
        number_octets::put_u16(buffer, 2, self.destination_port);
        number_octets::put_u16(buffer, 4, (UDP_HEADER + self.data.len()) as u16);
        number_octets::put_u16(buffer, CHECKSUM, checksum);
        number_octets::copy(self.data, buffer, UDP_HEADER);
    }
}
