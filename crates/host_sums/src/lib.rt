// Checksum and CRC32c alone, so that they can be measured. They are no calls for hosts: include/wuraketozo.h does not name them.
#![tactic(auto)]

ghost use Rattle.std.specs.Prelude.{◌≡◌, ◌+◌};
ghost use Rattle.number_checksum.specs.Checksum.{folded, word_sum};
ghost use Rattle.number_crc32c.specs.Crc.{crc_of};

// A running sum with the bytes of a slice added. `odd`: the first byte stands at an odd offset.
#[unsafe(no_mangle)]
pub extern "C" fn wuraketozo_sum(running: u16, bytes: &[u8], odd: bool) -> u16
    ensures { result ≡ folded (running + word_sum odd bytes.now) }
{
    number_checksum::add(running, bytes, odd)
}

// The CRC32c of some bytes, as the number whose big-endian bytes go on the wire.
#[unsafe(no_mangle)]
pub extern "C" fn wuraketozo_crc32c(bytes: &[u8]) -> u32
    ensures { result ≡ crc_of bytes.now }
{
    number_crc32c::crc32c(bytes)
}
