// The Internet checksum (RFC 1071). Every sum here is folded: 0 only where all that was added is 0, else 1 to 65,535.
//
// Eight bytes are added at a step, as two little-endian numbers of 32 bits. Folded, such a number is the sum of its two halves, and
// 256 times a little-endian sum is the big-endian one: so one fold at the end gives the sum of the 16-bit words, at either parity.
#![tactic(auto)]

ghost use Rattle.std.specs.Prelude.{◌≡◌, ◌+◌, ◌<◌, ◌≤◌, true, length, drop};
ghost use Rattle.number_checksum.specs.Checksum.{word_sum, folded, sent};

// How many bytes are added before a sum is folded: an even number, so that parity stays.
const BLOCK: usize = 65536;

const ALL_ONES: u64 = 65535;

// Parts the halves of eight bytes.
const HALF: u64 = 0x1_0000_0000;

// A running sum with the bytes of a slice added. `odd` says that the first byte stands at an odd offset.
pub fn add(running: u16, bytes: &[u8], odd: bool) -> u16
    ensures { result ≡ folded (running + word_sum odd bytes.now) }
{
    let mut sum = running;
    for block in bytes.chunks(BLOCK) {
        sum = add_block(u64::from(sum), block, odd);
    }
    sum
}

// The same for at most one block, and a running sum that need not be folded.
pub fn add_block(running: u64, bytes: &[u8], odd: bool) -> u16
    requires { (running ≤ 1099511627776) × (length bytes.now ≤ 65536) }
    ensures { result ≡ folded (running + word_sum odd bytes.now) }
{
    let sum = block_sum(bytes);
    if odd {
        return fold(running + sum);
    }
    fold(running + sum * 256)
}

// A running sum with one 16-bit word added.
pub fn add_word(running: u16, word: u16) -> u16
    ensures { result ≡ folded (running + word) }
{
    fold(u64::from(running) + u64::from(word))
}

// What a checksum field holds for the sum of all else: the complement, with 0 sent as FFFF.
pub fn field(sum: u16) -> u16
    ensures { result ≡ sent sum }
{
    if sum == 65535 {
        return sum;
    }
    65535 - sum
}

// The little-endian sum of one block, unfolded. Eight bytes are added at a step as they stand, wrapping, and their high halves apart: less
// those, what was added is the low halves, which can't have wrapped.
fn block_sum(bytes: &[u8]) -> u64
    requires { length bytes.now ≤ 65536 }
    ensures result_value { folded result ≡ folded (word_sum true bytes.now) }
    ensures upper_bound { result ≤ 140737488355328 }
{
    let steps = bytes.len() / 8;
    let mut added: u64 = 0;
    let mut high: u64 = 0;
    for k in 0..steps {
        let first = word(bytes, 8 * k);
        let second = word(bytes, 8 * k + 4);
        added = added.wrapping_add(first + second * HALF);
        high += second;
    }
    let low = added.wrapping_sub(high % HALF * HALF);
    low + high + rest_sum(bytes, 8 * steps)
}

// The same for what stands behind the last whole step, fewer than eight bytes.
fn rest_sum(bytes: &[u8], at: usize) -> u64
    requires { (at ≤ length bytes.now) × (length bytes.now < at + 8) × (length bytes.now ≤ 65536) }
    ensures result_value { folded result ≡ folded (word_sum true (drop at bytes.now)) }
    ensures upper_bound { result ≤ 8589934592 }
{
    if at + 4 <= bytes.len() {
        return word(bytes, at) + last_pair(bytes, at + 4);
    }
    last_pair(bytes, at)
}

// The same for the last three bytes, two, one or none.
fn last_pair(bytes: &[u8], at: usize) -> u64
    requires { (at ≤ length bytes.now) × (length bytes.now < at + 4) × (length bytes.now ≤ 65536) }
    ensures value { result ≡ word_sum true (drop at bytes.now) }
    ensures upper_bound { result ≤ 131072 }
{
    if at + 2 <= bytes.len() {
        return pair(bytes, at) + last_byte(bytes, at + 2);
    }
    last_byte(bytes, at)
}

// The same for the last byte, or none.
fn last_byte(bytes: &[u8], at: usize) -> u64
    requires { (at ≤ length bytes.now) × (length bytes.now < at + 2) }
    ensures value { result ≡ word_sum true (drop at bytes.now) }
    ensures upper_bound { result < 256 }
{
    if at < bytes.len() {
        return u64::from(bytes[at]);
    }
    0
}

// The four bytes at `at`, as a little-endian number.
fn word(bytes: &[u8], at: usize) -> u64
    requires { at + 4 ≤ length bytes.now }
    ensures bytes_value { folded (result + word_sum true (drop (at + 4) bytes.now)) ≡ folded (word_sum true (drop at bytes.now)) }
    ensures upper_bound { result ≤ 4294967295 }
{
    u64::from(number_octets::get_u32_little(bytes, at))
}

// The two bytes at `at`, as a little-endian number.
fn pair(bytes: &[u8], at: usize) -> u64
    requires { at + 2 ≤ length bytes.now }
    ensures bytes_value { result + word_sum true (drop (at + 2) bytes.now) ≡ word_sum true (drop at bytes.now) }
    ensures upper_bound { result ≤ 65535 }
{
    u64::from(bytes[at]) + u64::from(bytes[at + 1]) * 256
}

fn fold(sum: u64) -> u16
    ensures { result ≡ folded sum }
{
    if sum == 0 {
        return 0;
    }
    ((sum - 1) % ALL_ONES + 1) as u16
}
