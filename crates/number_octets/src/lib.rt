// Numbers in byte slices, in network byte order (big-endian) where the name says nothing else, and copying bytes from one slice into another.
#![tactic(auto)]

pub mod runs;
pub mod zeros;

ghost use Rattle.std.specs.Prelude.{◌≡◌, reverse, ◌+◌, ◌≤◌, length};
ghost use Rattle.number_octets.specs.Octets.{number, octets, part, overlay};

// The 16-bit number at `at`.
pub fn get_u16(bytes: &[u8], at: usize) -> u16
    requires { at + 2 ≤ length bytes.now }
    ensures { result ≡ number (part at 2 bytes.now) }
{
    let high = u16::from(bytes[at]);
    let low = u16::from(bytes[at + 1]);
    high * 256 + low
}

// The 32-bit number at `at`.
pub fn get_u32(bytes: &[u8], at: usize) -> u32
    requires { at + 4 ≤ length bytes.now }
    ensures { result ≡ number (part at 4 bytes.now) }
{
    let high = u32::from(get_u16(bytes, at));
    let low = u32::from(get_u16(bytes, at + 2));
    high * 65536 + low
}

// The 32-bit number at `at` whose least significant byte stands first.
pub fn get_u32_little(bytes: &[u8], at: usize) -> u32
    requires { at + 4 ≤ length bytes.now }
    ensures { result ≡ number (reverse (part at 4 bytes.now)) }
{
    let first = u32::from(bytes[at]);
    let second = u32::from(bytes[at + 1]);
    let third = u32::from(bytes[at + 2]);
    let fourth = u32::from(bytes[at + 3]);
    first + second * 256 + third * 65536 + fourth * 16777216
}

// Puts a 16-bit number at `at`.
pub fn put_u16(bytes: &mut [u8], at: usize, value: u16)
    requires { at + 2 ≤ length bytes.old }
    ensures { bytes.new ≡ overlay bytes.old at (octets 2 value) }
{
    bytes[at] = (value / 256) as u8;
    bytes[at + 1] = (value % 256) as u8;
}

// Puts a 32-bit number at `at`.
pub fn put_u32(bytes: &mut [u8], at: usize, value: u32)
    requires { at + 4 ≤ length bytes.old }
    ensures { bytes.new ≡ overlay bytes.old at (octets 4 value) }
{
    put_u16(bytes, at, (value / 65536) as u16);
    put_u16(bytes, at + 2, (value % 65536) as u16);
}

// Copies all of `source` into `target` from `at` on.
pub fn copy(source: &[u8], target: &mut [u8], at: usize)
    requires { at + length source.now ≤ length target.old }
    ensures { target.new ≡ overlay target.old at source.now }
{
    for i in 0..source.len() {
        target[at + i] = source[i];
    }
}
