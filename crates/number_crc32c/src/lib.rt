// CRC32c (Castagnoli), by table: sixteen bytes a step, the words that are left in one step, then the last few bytes one by one.
#![tactic(auto)]

ghost use Rattle.std.specs.Prelude.{◌≡◌, ◌+◌, ◌*◌, ◌/◌, ◌%◌, ◌≤◌, length, take};
ghost use Rattle.std.specs.Int.Bits.{bit_xor};
ghost use Rattle.number_crc_steps.specs.Steps.{steps};
ghost use Rattle.number_crc32c.specs.Crc.{ones, byte_step, register, swapped, crc_of};
ghost use Rattle.number_crc32c.specs.Words.{joined, Holds};

// What the register starts as, and what it is xor-ed with at the end.
const ONES: u32 = 0xFFFF_FFFF;

// Parts the two entries in a field of the table.
const HALF: u64 = 0x1_0000_0000;

// Up to four words of a slice that are stepped together, with 0 in front where there are fewer.
#[derive(Drop)]
struct Block {
    a: u32,
    b: u32,
    c: u32,
    d: u32,
}

// The xor of one, two, three and four numbers. Only the diagonal of four turns is used: a compiler leaves the rest out.
#[derive(Drop)]
struct Sums {
    one: u32,
    two: u32,
    three: u32,
    four: u32,
}

// The CRC32c of `bytes`, as the number whose big-endian bytes go on the wire.
pub fn crc32c(bytes: &[u8]) -> u32
    ensures { result ≡ crc_of bytes.now }
{
    swap(state_after(bytes) ^ ONES)
}

// The register after all of `bytes`.
fn state_after(bytes: &[u8]) -> u32
    ensures { result ≡ register ones bytes.now }
{
    let mut state = state_after_words(bytes);
    for byte in &bytes[bytes.len() / 4 * 4..] {
        state = step(state, *byte);
    }
    state
}

// The register after all of `bytes` but the last few, fewer than four.
fn state_after_words(bytes: &[u8]) -> u32
    ensures { result ≡ register ones (take (length bytes.now / 4 * 4) bytes.now) }
{
    let mut state: u32 = ONES;
    let count = (bytes.len() / 4 + 3) / 4;
    for k in 0..count {
        let block = block_at(state, bytes, 16 * k);
        state = step_words(block.a, block.b, block.c, block.d);
    }
    state
}

// The words at `at`, up to four, with the register in the first.
fn block_at(state: u32, bytes: &[u8], at: usize) -> Block
    requires { at + 4 ≤ length bytes.now }
    ensures { Holds state at bytes.now (joined result.a result.b result.c result.d) }
{
    let left = bytes.len() - at;
    if 16 <= left {
        return Block {
            a: state ^ number_octets::get_u32_little(bytes, at),
            b: number_octets::get_u32_little(bytes, at + 4),
            c: number_octets::get_u32_little(bytes, at + 8),
            d: number_octets::get_u32_little(bytes, at + 12),
        };
    }
    if 12 <= left {
        return Block {
            a: 0,
            b: state ^ number_octets::get_u32_little(bytes, at),
            c: number_octets::get_u32_little(bytes, at + 4),
            d: number_octets::get_u32_little(bytes, at + 8),
        };
    }
    if 8 <= left {
        return Block {
            a: 0,
            b: 0,
            c: state ^ number_octets::get_u32_little(bytes, at),
            d: number_octets::get_u32_little(bytes, at + 4),
        };
    }
    Block {
        a: 0,
        b: 0,
        c: 0,
        d: state ^ number_octets::get_u32_little(bytes, at),
    }
}

// Four words, stepped out. The last goes first: only the first waits for the register.
fn step_words(a: u32, b: u32, c: u32, d: u32) -> u32
    ensures { result ≡ joined a b c d }
{
    let mut sums = no_sums();
    for word in [d, c, b, a] {
        sums = move_word(sums, word);
    }
    sums.four
}

// A word after 32, 64, 96 and 128 bits, byte by byte: the last three added to the sums before.
fn move_word(before: Sums, n: u32) -> Sums
    ensures { (result.one ≡ steps 32 n) × (result.two ≡ bit_xor before.one (steps 64 n))
        × (result.three ≡ bit_xor before.two (steps 96 n)) × (result.four ≡ bit_xor before.three (steps 128 n)) }
{
    let mut by_32 = no_sums();
    let mut by_64 = no_sums();
    let mut by_96 = no_sums();
    let mut by_128 = no_sums();
    let mut rest = n;
    for _ in 0..4usize {
        let row = number_crc_rows::entries(rest % 256);
        by_32 = added(0, by_32, row.after_32_24, row.after_16_8);
        by_64 = added(before.one, by_64, row.after_64_56, row.after_48_40);
        by_96 = added(before.two, by_96, row.after_96_88, row.after_80_72);
        by_128 = added(before.three, by_128, row.after_128_120, row.after_112_104);
        rest /= 256;
    }
    Sums {
        one: by_32.four,
        two: by_64.four,
        three: by_96.four,
        four: by_128.four,
    }
}

fn no_sums() -> Sums {
    Sums {
        one: 0,
        two: 0,
        three: 0,
        four: 0,
    }
}

// Each sum with one number more, the halves of two fields; the first begins at `start`.
fn added(start: u32, sums: Sums, high: u64, low: u64) -> Sums
    ensures { (result.one ≡ bit_xor start (high / 4294967296)) × (result.two ≡ bit_xor sums.one (high % 4294967296))
        × (result.three ≡ bit_xor sums.two (low / 4294967296)) × (result.four ≡ bit_xor sums.three (low % 4294967296)) }
{
    Sums {
        one: start ^ ((high / HALF) as u32),
        two: sums.one ^ ((high % HALF) as u32),
        three: sums.two ^ ((low / HALF) as u32),
        four: sums.three ^ ((low % HALF) as u32),
    }
}

// The register after one byte more.
fn step(state: u32, byte: u8) -> u32
    ensures { result ≡ byte_step state byte }
{
    let n = state ^ u32::from(byte);
    number_crc_rows::nibble_after_8(n % 16)
        ^ number_crc_rows::nibble_after_4(n / 16 % 16)
        ^ (n / 256)
}

// The four bytes in reverse order.
fn swap(n: u32) -> u32
    ensures { result ≡ swapped n }
{
    n % 256 * 16777216 + n / 256 % 256 * 65536 + n / 65536 % 256 * 256 + n / 16777216
}
