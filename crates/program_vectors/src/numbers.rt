// What is printed of CRC32c, checksums and seven-bit numbers.
ghost use Rattle.std.specs.Prelude.{◌+◌, ◌≤◌, length};

use number_varint::{Decoded, Undecoded};
use std::io;

pub fn text(rt: &impl Print, bytes: &[u8]) -> io::Result<()> {
    rt.write_all(bytes)
}

// A word and the number behind it.
fn number(rt: &impl Print, word: &[u8], n: u64) -> io::Result<()> {
    text(rt, word)?;
    print!(rt; "{n}")
}

// 16 bits in hexadecimal.
fn hex(rt: &impl Print, n: u16) -> io::Result<()> {
    print!(rt; " {n:04x}")
}

pub fn crc(rt: &impl Print, bytes: &[u8]) -> io::Result<()> {
    let crc = number_crc32c::crc32c(bytes);
    print!(rt; " {crc:08x}")
}

// A running sum in two bytes, 1 where the rest stands at an odd offset, the bytes to be added.
pub fn sum(rt: &impl Print, bytes: &[u8]) -> io::Result<()> {
    if bytes.len() < 3 {
        return Ok(());
    }
    summed(
        rt,
        number_checksum::add(number_octets::get_u16(bytes, 0), &bytes[3..], bytes[2] == 1),
    )
}

// A running sum in two bytes, then bytes: for their first 0, 1, .. up to all the CRC32c, and the sums with them at an even and at an odd
// offset.
pub fn prefixes(rt: &impl Print, bytes: &[u8]) -> io::Result<()> {
    if bytes.len() < 2 {
        return Ok(());
    }
    let running = number_octets::get_u16(bytes, 0);
    for end in 2..=bytes.len() {
        prefix(rt, running, &bytes[2..end])?;
    }
    Ok(())
}

fn prefix(rt: &impl Print, running: u16, bytes: &[u8]) -> io::Result<()> {
    number(rt, b"\n", bytes.len() as u64)?;
    crc(rt, bytes)?;
    hex(rt, number_checksum::add(running, bytes, false))?;
    hex(rt, number_checksum::add(running, bytes, true))
}

// Two words to be added.
pub fn words(rt: &impl Print, bytes: &[u8]) -> io::Result<()> {
    if bytes.len() < 4 {
        return Ok(());
    }
    let a = number_octets::get_u16(bytes, 0);
    let b = number_octets::get_u16(bytes, 2);
    hex(rt, a)?;
    hex(rt, b)?;
    summed(rt, number_checksum::add_word(a, b))
}

// A sum, and the field that a checksum would hold for it.
fn summed(rt: &impl Print, total: u16) -> io::Result<()> {
    hex(rt, total)?;
    text(rt, b" field")?;
    hex(rt, number_checksum::field(total))
}

// The number that stands at `at`.
pub fn decoded(rt: &impl Print, bytes: &[u8], at: usize) -> io::Result<()> {
    match number_varint::decode(bytes, at) {
        Ok(Decoded { value, next }) => {
            number(rt, b" value ", value)?;
            number(rt, b" next ", next as u64)
        }
        Err(Undecoded { at }) => number(rt, b" refused ", at as u64),
    }
}

// A value and a position, eight bytes each: the value's encoding from there on in ten bytes that are ff, and what stands there then.
pub fn encoding(rt: &impl Print, bytes: &[u8]) -> io::Result<()> {
    if bytes.len() < 16 {
        return Ok(());
    }
    let value = wide(bytes, 0);
    let at = wide(bytes, 8);
    let mut buffer = [0xFFu8; 10];
    number(rt, b" ", value)?;
    number(rt, b" at ", at)?;
    number(rt, b" length ", number_varint::encoded_length(value) as u64)?;
    encoded(rt, value, &mut buffer, at as usize)
}

fn wide(bytes: &[u8], at: usize) -> u64
    requires { at + 8 ≤ length bytes.now }
{
    u64::from(number_octets::get_u32(bytes, at)) * 4294967296
        + u64::from(number_octets::get_u32(bytes, at + 4))
}

fn encoded(rt: &impl Print, value: u64, buffer: &mut [u8], at: usize) -> io::Result<()> {
    match number_varint::encode(value, buffer, at) {
        Ok(next) => number(rt, b" next ", next as u64)?,
        Err(_) => text(rt, b" full")?,
    }
    text(rt, b" bytes ")?;
    all(rt, buffer)?;
    decoded(rt, buffer, at)
}

// All bytes in hexadecimal.
fn all(rt: &impl Print, bytes: &[u8]) -> io::Result<()> {
    for byte in bytes {
        print!(rt; "{byte:02x}")?;
    }
    Ok(())
}
