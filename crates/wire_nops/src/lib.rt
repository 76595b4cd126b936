// NOPs in a row: how many stand at the front of a list, and when they are padding (RFC 9868 section 11.2).
#![tactic(auto)]

ghost use Rattle.std.specs.Prelude.{◌≡◌, ◌+◌, ◌≤◌, length, drop};
ghost use Rattle.wire_nops.specs.Nops.{nops_of, is_padding};

use number_octets::runs::run_end;

// How lists are read: plainly, or so that padding with NOPs is a fault (document 02, R-6).
#[derive(Clone, Copy)]
pub enum Strictness {
    Plain,
    Strict,
}

// How many NOPs may stand in a row where reading is strict; with one more they are padding.
pub const NOP_LIMIT: usize = 7;

const PADDING: usize = NOP_LIMIT + 1;

const NOP: u8 = 1;

// Four NOPs as one number.
const FOUR_NOPS: u32 = 16843009;

// How many bytes of a long row of NOPs are looked at together.
const BLOCK: usize = 32;

// In strict reading eight NOPs at the front are padding, whatever stands behind them.
pub fn is_padded(list: &[u8], strictness: Strictness) -> bool
    ensures { result ≡ is_padding strictness (nops_of list.now) }
{
    match strictness {
        Strictness::Plain => false,
        Strictness::Strict => starts_padded(list),
    }
}

// The same in strict reading. No byte behind the eighth is looked at.
fn starts_padded(list: &[u8]) -> bool
    ensures { result ≡ is_padding Strictness.Strict (nops_of list.now) }
{
    list.len() >= PADDING
        && number_octets::get_u32_little(list, 0) == FOUR_NOPS
        && number_octets::get_u32_little(list, 4) == FOUR_NOPS
}

// How many stand at the front: whole blocks are passed first.
pub fn leading_nops(list: &[u8]) -> usize
    ensures { (result ≡ nops_of list.now) × (result ≤ length list.now) }
{
    if list.is_empty() || list[0] != NOP {
        return 0;
    }
    run_end::<NOP>(list, whole_blocks(list))
}

// So many NOPs at least, in whole blocks. A short row costs no more than a look at the last byte of the first block. Kept as a count: a step is a
// block, and the first other one ends it.
fn whole_blocks(list: &[u8]) -> usize
    ensures { (result ≤ length list.now) × (nops_of list.now ≡ result + nops_of (drop result list.now)) }
{
    if list.len() < BLOCK {
        return 0;
    }
    if list[BLOCK - 1] != NOP {
        return 0;
    }
    let mut n = 0;
    while BLOCK <= list.len() - n {
        if block_difference(list, n) != 0 {
            return n;
        }
        n += BLOCK;
    }
    n
}

// The bits in which a word of the block at `at` is not four NOPs. Nothing is tested before the block's end: so a compiler takes as many
// words at a time as a register has room for.
fn block_difference(list: &[u8], at: usize) -> u32
    requires { at + 32 ≤ length list.now }
    ensures { result ≡ 0 → nops_of (drop at list.now) ≡ 32 + nops_of (drop (at + 32) list.now) }
{
    let mut different: u32 = 0;
    for k in 0..BLOCK / 4 {
        different |= number_octets::get_u32_little(list, at + 4 * k) ^ FOUR_NOPS;
    }
    different
}
