// How far bytes of one value go on.
ghost use Rattle.std.specs.Prelude.{◌≡◌, ◌+◌, ◌≤◌, length, drop};
ghost use Rattle.number_octets.specs.Runs.{run_of};

// Four bytes of value 1 as one number.
const FOUR_ONES: u32 = 16843009;

// Where the row of bytes `BYTE` from `from` on ends: whole fours, then the bytes that are left, one by one.
pub fn run_end<const BYTE: u8>(bytes: &[u8], from: usize) -> usize
    requires { from ≤ length bytes.now }
    ensures within { result ≤ length bytes.now }
    ensures end { result ≡ from + run_of BYTE (drop from bytes.now) }
{
    for n in whole_fours::<BYTE>(bytes, from)..bytes.len() {
        if bytes[n] != BYTE {
            return n;
        }
    }
    bytes.len()
}

// So far at least, in whole fours. Kept as a count: a step is four bytes, and the first other word ends it.
fn whole_fours<const BYTE: u8>(bytes: &[u8], from: usize) -> usize
    requires { from ≤ length bytes.now }
    ensures within { result ≤ length bytes.now }
    ensures passed { from + run_of BYTE (drop from bytes.now) ≡ result + run_of BYTE (drop result bytes.now) }
{
    let word = u32::from(BYTE) * FOUR_ONES;
    let mut n = from;
    while 4 <= bytes.len() - n {
        if crate::get_u32_little(bytes, n) != word {
            return n;
        }
        n += 4;
    }
    n
}
