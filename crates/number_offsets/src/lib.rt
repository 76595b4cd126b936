// Two kinds of position that must not mix: an offset in a packet, and a place in a reassembled original.
#![tactic(auto)]

ghost use Rattle.std.specs.Prelude.{◌≡◌, ◌<◌};
ghost use Rattle.number_offsets.specs.Offsets.{place_of, offset_of};

// The length of a UDP header (RFC 768).
pub const UDP_HEADER: usize = 8;

// A count of bytes from the UDP header of a packet.
#[repr(C)]
#[derive(Clone, Copy)]
pub struct PacketOffset(pub usize);

// A count of bytes from the first user byte of an original: document 01's place.
#[repr(C)]
#[derive(Clone, Copy)]
pub struct OriginalOffset(pub usize);

// The place that a field names which counts from the original's UDP header (RFC 9868 section 11.4): none where it
// lies before the user data.
pub fn place_of(field: u16) -> Option<OriginalOffset>
    ensures { result ≡ place_of field }
{
    let at = usize::from(field);
    if at < UDP_HEADER {
        return None;
    }
    Some(OriginalOffset(at - UDP_HEADER))
}

// The way back: where a place stands, counted from the original's UDP header.
pub fn offset_of(place: OriginalOffset) -> PacketOffset
    requires { place.0 < 18446744073709551608 }
    ensures { result ≡ offset_of place }
{
    PacketOffset(UDP_HEADER + place.0)
}
