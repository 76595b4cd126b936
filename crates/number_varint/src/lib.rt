// Seven-bit numbers, as option lists hold them: groups of seven bits, lowest group first, the top bit set on all but
// the last byte, shortest form only. Document 01, "Dockets and the writer".
#![tactic(auto)]

ghost use Rattle.std.specs.Prelude.{◌≡◌, length};
ghost use Rattle.number_varint.specs.SevenBit.{encoded};
ghost use Rattle.number_varint.specs.Answer.{decoding_of, decoded_at, EncodedAt};

// 2^57: what stands behind the first group must be below it for the number to be within 64 bits.
const SECOND_ROOM: u64 = 0x0200_0000_0000_0000;

// A number that stands at a position, and the position behind it.
#[derive(Clone, Copy)]
pub struct Decoded {
    pub value: u64,
    pub next: usize,
}

// No number stands there: where it would have begun.
#[derive(Clone, Copy)]
pub struct Undecoded {
    pub at: usize,
}

// The buffer is too small for the encoding.
#[derive(Clone, Copy)]
pub struct Full;

// The number that begins at `at`, if it is whole, within 64 bits and in its shortest form. After its first group, the
// groups so far are worth `value`; those to come count `weight` each and must be worth less than `room`, 2^64 / weight.
pub fn decode(bytes: &[u8], at: usize) -> Result<Decoded, Undecoded>
    ensures { decoding_of result ≡ decoded_at bytes.now at }
{
    if bytes.len() <= at {
        return Err(Undecoded { at });
    }
    let first = u64::from(bytes[at]);
    if first < 128 {
        return Ok(Decoded {
            value: first,
            next: at + 1,
        });
    }
    let mut value = first % 128;
    let mut weight: u64 = 128;
    let mut room = SECOND_ROOM;
    for i in at + 1..bytes.len() {
        let group = u64::from(bytes[i]);
        // A last group of 0: a shorter form exists.
        if group == 0 {
            return Err(Undecoded { at });
        }
        // Past 64 bits, with this group or with those behind it.
        if room <= group {
            return Err(Undecoded { at });
        }
        if group < 128 {
            return Ok(Decoded {
                value: value + weight * group,
                next: i + 1,
            });
        }
        value += weight * (group % 128);
        weight *= 128;
        room /= 128;
    }
    Err(Undecoded { at })
}

// How many bytes the encoding of `value` is long.
pub fn encoded_length(value: u64) -> usize
    ensures { result ≡ length (encoded value) }
{
    let mut rest = value;
    let mut count = 1;
    while 128 <= rest {
        rest /= 128;
        count += 1;
    }
    count
}

// Writes the encoding of `value` from `at`, if it fits, and gives where it ends. Kept as a count: the turns are known by dividing alone.
pub fn encode(value: u64, buffer: &mut [u8], at: usize) -> Result<usize, Full>
    ensures { EncodedAt value buffer.old at result buffer.new }
{
    let count = encoded_length(value);
    if buffer.len() < at {
        return Err(Full);
    }
    if buffer.len() - at < count {
        return Err(Full);
    }
    let mut rest = value;
    let mut i = at;
    while 128 <= rest {
        buffer[i] = (128 + rest % 128) as u8;
        rest /= 128;
        i += 1;
    }
    buffer[i] = rest as u8;
    Ok(i + 1)
}
