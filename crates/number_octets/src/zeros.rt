// Whether bytes are all zero, and how many are in front of the first other one. The test looks once, at the end, at what is set in any byte: so a
// compiler takes as many bytes at a time as a register has room for.
ghost use Rattle.std.specs.Prelude.{◌≡◌, ◌≤◌, fold, length};
ghost use Rattle.std.specs.Int.Bits.{bit_or};
ghost use Rattle.number_octets.specs.Zeros.{all_zero, zeros_of};

use crate::runs::run_end;

pub fn all_zero(bytes: &[u8]) -> bool
    ensures { result ≡ all_zero bytes.now }
{
    set_in(bytes) == 0
}

// The bits that are set in one of the bytes.
fn set_in(bytes: &[u8]) -> u8
    ensures { result ≡ fold bit_or 0 bytes.now }
{
    bytes.iter().fold(0, |set, byte| set | byte)
}

// How many zero bytes stand in front of the first other one.
pub fn leading_zeros(bytes: &[u8]) -> usize
    ensures { (result ≡ zeros_of bytes.now) × (result ≤ length bytes.now) }
{
    run_end::<0>(bytes, 0)
}
