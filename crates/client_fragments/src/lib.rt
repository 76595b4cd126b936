// The fragments that an assembly holds: where each ends, what two of them are to each other, and when an assembly is whole.
#![tactic(auto)]

ghost use Rattle.std.specs.Prelude.{◌≡◌, true};
ghost use Rattle.client_record.specs.Lists.{any};
ghost use Rattle.client_record.specs.Post.{HeldCount};
ghost use Rattle.client_record.specs.Record.{is_last, end, overlaps, outruns, conflicts, compatible, last_of, whole, held_fragments, bytes_held};

use client_record::{Assembly, FRAGMENT_LIMIT, Fragment};

// ---- one fragment, and two

// It is the last one of its original.
#[tactic(auto, unfolding(client_record::specs::Record::is_last))]
pub fn is_last(f: Fragment) -> bool
    ensures { result ≡ is_last f }
{
    f.last != 0
}

// The first place behind it.
#[tactic(auto, unfolding(client_record::specs::Record::end))]
pub fn end_of(f: Fragment) -> usize
    ensures { result ≡ end f }
{
    usize::from(f.offset) + usize::from(f.length)
}

// `f` ends past the end that `g`, the last one, makes known.
#[tactic(auto, unfolding(client_record::specs::Record::outruns))]
fn outruns(f: Fragment, g: Fragment) -> bool
    ensures { result ≡ outruns f g }
{
    is_last(g) && end_of(g) < end_of(f)
}

#[tactic(auto, unfolding(client_record::specs::Record::overlaps))]
fn overlaps(f: Fragment, g: Fragment) -> bool
    ensures { result ≡ overlaps f g }
{
    usize::from(f.offset) < end_of(g) && usize::from(g.offset) < end_of(f)
}

// The two contradict each other (document 01's clash).
#[tactic(auto, unfolding(client_record::specs::Record::conflicts, client_record::specs::Record::both_last))]
pub fn conflicts(f: Fragment, g: Fragment) -> bool
    ensures { result ≡ conflicts f g }
{
    overlaps(f, g) || (is_last(f) && is_last(g)) || outruns(f, g) || outruns(g, f)
}

// ---- the fragments of one assembly

// How many fragments it holds; a forged count may pass the slots.
pub fn held_count(a: Assembly) -> usize
    ensures { HeldCount a result }
{
    (a.count as usize).min(FRAGMENT_LIMIT)
}

// One of the held fragments conflicts with `f`. Kept without an early end: where none does, `any` takes twice the instructions.
#[tactic(auto, unfolding(client_record::specs::Limits::fragment_limit))]
pub fn conflicts_any(a: Assembly, f: Fragment) -> bool
    ensures { result ≡ any (λ g. conflicts g f) (held_fragments a) }
{
    let mut found = false;
    for i in 0..held_count(a) {
        found |= conflicts(a.fragments[i], f);
    }
    found
}

// The fragment that is marked last; a fresh one if there is none.
#[tactic(auto, unfolding(client_record::specs::Limits::fragment_limit))]
pub fn last_of(a: Assembly) -> Fragment
    ensures { result ≡ last_of (held_fragments a) }
{
    for i in 0..held_count(a) {
        let f = a.fragments[i];
        if is_last(f) {
            return f;
        }
    }
    client_record::fresh_fragment()
}

// The completion test: the last fragment is held, and all before its end. Fragments of which none contradicts another cover it exactly if
// their lengths sum to it, so one pass decides.
#[tactic(auto, unfolding(client_record::specs::Limits::fragment_limit))]
pub fn whole(a: Assembly) -> bool
    requires { compatible (held_fragments a) ≡ true }
    ensures { result ≡ whole (held_fragments a) }
{
    let held = held_count(a);
    let mut total = 0;
    let mut known = false;
    let mut past = 0;
    for i in 0..held {
        let f = a.fragments[i];
        total += f.length as usize;
        if is_last(f) {
            known = true;
            past = end_of(f);
        }
    }
    known && total == past
}

// The bytes of the held fragments.
#[tactic(auto, unfolding(client_record::specs::Limits::fragment_limit))]
pub fn bytes_held(a: Assembly) -> u32
    ensures { result ≡ bytes_held a }
{
    let mut total = 0u32;
    for i in 0..held_count(a) {
        total += u32::from(a.fragments[i].length);
    }
    total
}
