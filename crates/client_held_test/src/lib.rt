// What the record test asks of the fragments that an assembly holds (document 01, refusal 22): each by itself, no overlap, at most one last,
// none past its end, and not yet whole. One pass decides where each starts at or behind the end of the one in front of it, as they do that came
// in order, and none is marked last; a second one looks at the marks. Where they do not rise, the places that they take are marked, 64 to a word. No
// pass compares every pair.
#![tactic(auto)]

ghost use Rattle.std.specs.Prelude.{◌≡◌, not, ◌&&◌, cond, leb};
ghost use Rattle.std.specs.Bool.{then_some};
ghost use Rattle.client_record.specs.Lists.{all, pairs};
ghost use Rattle.client_record.specs.Post.{HeldCount};
ghost use Rattle.client_record.specs.Record.{sound_fragment, end, overlaps, compatible, whole, held_fragments, bytes_held};
ghost use Rattle.client_held_test.specs.Held.{PastOf, Passed, Marked, Marking, most_of, Placing};

use client_record::{Assembly, Fragment};

// The words that have a bit for each place of an original.
const WORDS: usize = (client_record::DATAGRAM_LIMIT + number_sets::WORD - 1) / number_sets::WORD;

// The longest original, in the width of the pass.
const LIMIT: u32 = client_record::DATAGRAM_LIMIT as u32;

// The first place behind it.
#[tactic(auto, unfolding(client_record::specs::Record::end))]
fn past_of(f: Fragment) -> u32
    ensures { PastOf f result }
{
    (f.offset as u32) + (f.length as u32)
}

// Kept as a function, so that the loop that chooses has no branch.
fn chosen(test: bool, a: u32, b: u32) -> u32
    ensures { result ≡ cond test a b }
{
    if test { a } else { b }
}

// What one pass over the fragments finds: whether one is empty, whether one starts before the end of the one in front of it, the last marks
// joined by or, the end of the one that is listed last, and the bytes.
#[derive(Drop)]
struct Pass {
    empty: bool,
    falls: bool,
    marks: u32,
    behind: u32,
    total: u32,
}

// The pass has no branch, so that the compiler takes several fragments at a step.
#[tactic(auto, unfolding(client_record::specs::Limits::fragment_limit))]
fn sweep(a: Assembly, n: usize) -> Pass
    requires { HeldCount a n }
    ensures { Passed (held_fragments a) result }
{
    let mut empty = false;
    let mut falls = false;
    let mut marks = 0u32;
    let mut behind = 0u32;
    let mut total = 0u32;
    for i in 0..n {
        let f = a.fragments[i];
        empty |= f.length == 0;
        falls |= (f.offset as u32) < behind;
        marks |= f.last as u32;
        behind = past_of(f);
        total += f.length as u32;
    }
    Pass {
        empty,
        falls,
        marks,
        behind,
        total,
    }
}

// What the fragments that are marked last say: how many they are, and their ends and option starts, summed.
#[derive(Drop)]
struct LastOnes {
    count: u32,
    past: u32,
    options: u32,
}

#[tactic(auto, unfolding(client_record::specs::Limits::fragment_limit))]
fn last_ones(a: Assembly, n: usize) -> LastOnes
    requires { HeldCount a n }
    ensures { Marked (held_fragments a) result }
{
    let mut count = 0u32;
    let mut past = 0u32;
    let mut options = 0u32;
    for i in 0..n {
        let f = a.fragments[i];
        let last = client_fragments::is_last(f);
        count += chosen(last, 1, 0);
        past += chosen(last, past_of(f), 0);
        options += chosen(last, f.option_start as u32, 0);
    }
    LastOnes {
        count,
        past,
        options,
    }
}

// Where fragments may end: at the known end, or where the longest original does. 0 if the known end can't be: two are last, it lies before
// the option start or past the longest original, or there are as many bytes as places before it.
#[tactic(auto, unfolding(client_record::specs::Limits::datagram_limit, crate::specs::Held::most_of, crate::specs::Held::ends_well))]
fn most_end(a: Assembly, n: usize, marks: u32, total: u32) -> u32
    requires { Marking a n marks }
    ensures { result ≡ most_of (held_fragments a) total }
{
    if marks == 0 {
        return LIMIT;
    }
    let last = last_ones(a, n);
    let past = last.past;
    if 1 < last.count || past < last.options || LIMIT < past || past == total {
        return 0;
    }
    past
}

// None of the `held` fragments ends past `most`, and no two of them overlap.
#[tactic(auto, unfolding(client_record::specs::Limits::fragment_limit))]
fn apart(a: Assembly, held: usize, most: u32) -> bool
    requires { Placing a held most }
    ensures { result ≡ all (λ f. leb (end f) most) (held_fragments a) && pairs (λ f g. not (overlaps f g)) (held_fragments a) }
{
    let mut places = [0u64; WORDS];
    for k in 0..held {
        let f = a.fragments[k];
        if most < past_of(f) {
            return false;
        }
        if !number_sets::include(&mut places, f.offset as usize, client_fragments::end_of(f)) {
            return false;
        }
    }
    true
}

// What the record test asks of the `n` held fragments: the bytes of them, where they pass.
pub fn held_tested(a: Assembly, n: usize) -> Option<u32>
    requires { HeldCount a n }
    ensures { result ≡ then_some (all sound_fragment (held_fragments a) && (compatible (held_fragments a) && not (whole (held_fragments a)))) (bytes_held a) }
{
    let s = sweep(a, n);
    if s.empty {
        return None;
    }
    let most = most_end(a, n, s.marks, s.total);
    let sound = if s.falls {
        apart(a, n, most)
    } else {
        s.behind <= most
    };
    sound.then_some(s.total)
}
