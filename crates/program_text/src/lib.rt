// Text put into a buffer: as much of it as fits.
#![tactic(auto)]

ghost use Rattle.std.specs.Prelude.{◌≡◌, ◌++◌, ◌∷◌, [], ◌≤◌, ◌<◌, length};
ghost use Rattle.program_text.specs.Digits.{decimal_of, hex_of, hex_digit};
ghost use Rattle.program_text.specs.Put.{Put};
ghost use Rattle.program_text.specs.Characters.{newline};
ghost use Rattle.program_text.specs.Offsets.{at_offset};

use number_offsets::PacketOffset;

// Puts what fits of `bytes` at `at`, and answers where it ends. A text that fits has an arm of its own: where the compiler knows its length, it is
// copied without a loop.
pub fn put(bytes: &[u8], text: &mut [u8], at: usize) -> usize
    requires { at ≤ length text.old }
    ensures { Put text.old at bytes.now result text.new }
{
    let room = text.len() - at;
    let Some(cut) = bytes.get(..room) else {
        number_octets::copy(bytes, text, at);
        return at + bytes.len();
    };
    number_octets::copy(cut, text, at);
    at + room
}

// The number in decimal: its digits from the last place of an array forward, and then put. Kept as a count: the turns are known by dividing alone.
pub fn put_decimal(n: usize, text: &mut [u8], at: usize) -> usize
    requires { at ≤ length text.old }
    ensures { Put text.old at (decimal_of n) result text.new }
{
    let mut digits = [0u8; 20];
    let mut i = 19;
    let mut rest = n;
    while 10 <= rest {
        digits[i] = (48 + rest % 10) as u8;
        rest /= 10;
        i -= 1;
    }
    digits[i] = (48 + rest) as u8;
    put(&digits[i..], text, at)
}

// The bytes in lower-case hexadecimal.
pub fn put_hex(bytes: &[u8], text: &mut [u8], at: usize) -> usize
    requires { at ≤ length text.old }
    ensures { Put text.old at (hex_of bytes.now) result text.new }
{
    let mut end = at;
    for byte in bytes {
        end = put_byte(*byte, text, end);
    }
    end
}

// One byte: its high digit, then its low one.
fn put_byte(byte: u8, text: &mut [u8], at: usize) -> usize
    requires { at ≤ length text.old }
    ensures { Put text.old at (hex_of (byte ∷ [])) result text.new }
{
    let digits = [hex_digit(byte / 16), hex_digit(byte % 16)];
    put(&digits, text, at)
}

fn hex_digit(n: u8) -> u8
    requires { n < 16 }
    ensures { result ≡ hex_digit n }
{
    if n < 10 {
        return 48 + n;
    }
    87 + n
}

// A label and a number.
pub fn put_line(label: &[u8], n: usize, text: &mut [u8], at: usize) -> usize
    requires { at ≤ length text.old }
    ensures { Put text.old at (label.now ++ decimal_of n ++ (newline ∷ [])) result text.new }
{
    let named = put(label, text, at);
    let numbered = put_decimal(n, text, named);
    put(b"\n", text, numbered)
}

// The end of a line that says where something stands.
pub fn put_offset(offset: PacketOffset, text: &mut [u8], at: usize) -> usize
    requires { at ≤ length text.old }
    ensures { Put text.old at (at_offset offset) result text.new }
{
    put_line(b" at ", offset.0, text, at)
}
