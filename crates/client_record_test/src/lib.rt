// The record test of document 01 (refusal 22): one function for each clause of its sentence. What it asks of the held fragments of an assembly
// is `client_held_test`'s.
#![tactic(auto)]

ghost use Rattle.std.specs.Prelude.{◌≡◌, ◌&&◌, ◌≤◌, eqb, take};
ghost use Rattle.std.specs.Bool.{then_some};
ghost use Rattle.client_record.specs.Limits.{assembly_limit};
ghost use Rattle.client_record.specs.Lists.{all, any, sum};
ghost use Rattle.client_record.specs.Record.{is_fresh_fragment, spare_slots, bytes_held};
ghost use Rattle.client_record.specs.Record.{opened_within, sound_assembly, same_live_key, keys_differ, balanced, within_plan, sound_record};
ghost use Rattle.client_record_test.specs.Parts.{unused_fields, sound_fields};

use client_record::{Assembly, Client, Fragment};

// ---- the slots of one assembly

// The fields of a slot as one number: 0 exactly if it is as in a fresh record.
fn slot_word(f: Fragment) -> u64
    ensures { eqb result 0 ≡ is_fresh_fragment f }
{
    let length = (f.length as u64) << 16;
    let options = (f.option_start as u64) << 32;
    let last = (f.last as u64) << 48;
    (f.offset as u64) | length | options | last
}

// The slots behind the held fragments are as in a fresh record. The loop has no branch, so that the compiler takes several slots at a step.
fn spare_fresh(a: Assembly) -> bool
    ensures { result ≡ all is_fresh_fragment (spare_slots a) }
{
    let mut stray = 0u64;
    for i in client_fragments::held_count(a)..client_record::FRAGMENT_LIMIT {
        stray |= slot_word(a.fragments[i]);
    }
    stray == 0
}

// ---- one assembly

// Its fields beside the slots are as in a fresh record.
#[tactic(auto, using(client_record::proofs::Keys::derived_flow), unfolding(crate::specs::Parts::unused_fields))]
fn unused(a: Assembly) -> bool
    ensures { result ≡ unused_fields a }
{
    (a.flow == client_record::fresh_flow()) & (a.identification == 0) & (a.opened == 0)
}

// Opened at or before `time`, and less than the lifetime before it.
#[tactic(auto, unfolding(client_record::specs::Limits::lifetime, client_record::specs::Record::opened_within))]
fn opened_within(a: Assembly, time: u64) -> bool
    ensures { result ≡ opened_within time a }
{
    a.opened <= time && time - a.opened < client_record::LIFETIME
}

// What the record test asks of a live assembly, but for its spare slots: the bytes that it holds, where it passes.
fn live_tested(a: Assembly, time: u64) -> Option<u32>
    ensures { result ≡ then_some (sound_fields time a) (bytes_held a) }
{
    let count = a.count as usize;
    if client_record::FRAGMENT_LIMIT < count {
        return None;
    }
    if !opened_within(a, time) {
        return None;
    }
    client_held_test::held_tested(a, count)
}

// The bytes that an assembly holds, where it passes.
fn assembly_tested(a: Assembly, time: u64) -> Option<u32>
    ensures { result ≡ then_some (sound_assembly time a) (bytes_held a) }
{
    if !spare_fresh(a) {
        return None;
    }
    if client_record::live(a) {
        return live_tested(a, time);
    }
    unused(a).then_some(0)
}

// ---- the record

// The bytes of the live fragments, where each assembly passes and none is live past the plan.
#[tactic(auto, unfolding(client_record::specs::Limits::assembly_limit))]
fn assemblies_tested(c: Client) -> Option<u64>
    ensures { result ≡ then_some (all (sound_assembly c.time) c.assemblies && within_plan c) (sum bytes_held c.assemblies) }
{
    let plan = c.plan as usize;
    let mut total = 0u64;
    for i in 0..client_record::ASSEMBLY_LIMIT {
        if plan <= i && client_record::live(c.assemblies[i]) {
            return None;
        }
        total += u64::from(assembly_tested(c.assemblies[i], c.time)?);
    }
    Some(total)
}

// Both are live and have one key.
#[tactic(auto, unfolding(client_record::specs::Record::same_live_key))]
fn same_live_key(a: Assembly, b: Assembly) -> bool
    ensures { result ≡ same_live_key a b }
{
    client_record::live(a)
        && client_record::live(b)
        && client_record::has_key(b, a.flow, a.identification)
}

// One of the first `n` assemblies has the key of `a`. Kept without an early end, as keys of a sound record differ.
#[tactic(auto, unfolding(client_record::specs::Limits::assembly_limit))]
fn key_among(c: Client, n: usize, a: Assembly) -> bool
    requires { n ≤ assembly_limit }
    ensures { result ≡ any (λ b. same_live_key b a) (take n c.assemblies) }
{
    let mut found = false;
    for i in 0..n {
        found |= same_live_key(c.assemblies[i], a);
    }
    found
}

#[tactic(auto, unfolding(client_record::specs::Limits::assembly_limit))]
fn keys_differ(c: Client) -> bool
    ensures { result ≡ keys_differ c.assemblies }
{
    let mut ok = true;
    for i in 0..client_record::ASSEMBLY_LIMIT {
        ok &= !key_among(c, i, c.assemblies[i]);
    }
    ok
}

// The six figures sum to what is offered, at most the limit; in 128 bits the sum of six numbers can't wrap.
#[tactic(auto, unfolding(client_record::specs::Limits::offered_limit, client_record::specs::Record::sums_to, client_record::specs::Record::balanced, client_record::specs::Record::figure_sum))]
fn balanced(c: Client) -> bool
    ensures { result ≡ balanced c }
{
    let total = (c.held as u128)
        + (c.delivered as u128)
        + (c.expired as u128)
        + (c.conflicted as u128)
        + (c.repeated as u128)
        + (c.rejected as u128);
    total == c.offered as u128 && c.offered <= client_record::OFFERED_LIMIT
}

// The record test of document 01 (refusal 22), with document 02's clause of the plan.
pub fn sound(c: Client) -> bool
    ensures { result ≡ sound_record c }
{
    assemblies_tested(c) == Some(c.held) && keys_differ(c) && balanced(c)
}
