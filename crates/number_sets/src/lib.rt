// A set of numbers as bits: bit i % 64 of word i / 64 says whether i is in it. A range joins the set word by word, 64 numbers at a step.
#![tactic(auto)]

ghost use Rattle.std.specs.Prelude.{◌+◌, ◌*◌, ◌<◌, ◌≤◌, length};
ghost use Rattle.number_sets.specs.Sets.{Room, Included};
ghost use Rattle.number_sets.specs.Words.{Mask, Put};

// The numbers of one word.
pub const WORD: usize = 64;

// Every bit of a word.
const FULL: u64 = u64::MAX;

// The bits from `first` on.
fn from_bit(first: usize) -> u64
    requires { first < 64 }
    ensures { Mask result first 64 }
{
    FULL - ((1u64 << first) - 1)
}

// The bits up to `last`, itself included.
fn to_bit(last: usize) -> u64
    requires { last < 64 }
    ensures { Mask result 0 (last + 1) }
{
    let top = 1u64 << last;
    top - 1 + top
}

// The bits of `mask` join word `w`; says whether none of them was in it.
fn put(words: &mut [u64], w: usize, mask: u64) -> bool
    requires { w < length words.old }
    ensures { Put words.old w mask result words.new }
{
    let word = words[w];
    words[w] = word | mask;
    word & mask == 0
}

// The words `from` to `to` become full; says whether they were empty.
fn fill(words: &mut [u64], from: usize, to: usize) -> bool
    requires { (from ≤ to) × (to ≤ length words.old) }
    ensures { Included words.old (64 * from) (64 * to) result words.new }
{
    let mut seen = 0u64;
    for w in from..to {
        seen |= words[w];
        words[w] = FULL;
    }
    seen == 0
}

// The numbers `start` to `end` join the set; says whether none of them was in it.
pub fn include(words: &mut [u64], start: usize, end: usize) -> bool
    requires { Room words.old start end }
    ensures { Included words.old start end result words.new }
{
    let first = start / WORD;
    let last = (end - 1) / WORD;
    let low = from_bit(start % WORD);
    let high = to_bit((end - 1) % WORD);
    if first == last {
        return put(words, first, low & high);
    }
    let head = put(words, first, low);
    let middle = fill(words, first + 1, last);
    let tail = put(words, last, high);
    head & middle & tail
}
