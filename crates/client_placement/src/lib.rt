// Where a fragment belongs in a client's record, what becomes of it there, and the record after each fate (document 01, "The table").
#![tactic(auto)]

ghost use Rattle.std.specs.Prelude.{◌≡◌, not, ◌<◌, length, position};
ghost use Rattle.client_record.specs.Limits.{fragment_limit};
ghost use Rattle.client_record.specs.Lists.{same_bytes, any};
ghost use Rattle.client_record.specs.Record.{live, held_fragments};
ghost use Rattle.client_reassembly.specs.Offer.{matches, first_index, place_for, opening, assembly_for, alike, repeats, added};
ghost use Rattle.client_reassembly.specs.Offer.{rejecting, repeating, conflicting, storing, delivering};
ghost use Rattle.client_reassembly.specs.Post.{Room, PlaceFor, Ending, Storing};

use client_reassembly::Arrival;
use client_record::{Assembly, Client, Fragment};

// ---- where a fragment belongs

// A live assembly with the offer's key.
#[tactic(auto, unfolding(client_reassembly::specs::Offer::matches))]
fn matches(a: Assembly, o: Arrival) -> bool
    ensures { result ≡ matches o a }
{
    client_record::live(a) && client_record::has_key(a, o.flow, o.identification)
}

// The place of the assembly with the offer's key.
fn find(c: Client, o: Arrival) -> Option<usize>
    ensures { result ≡ position (matches o) c.assemblies }
{
    c.assemblies.iter().position(|a| matches(*a, o))
}

// The lowest free place.
fn lowest_free(c: Client) -> Option<usize>
    ensures { result ≡ position (λ a. not (live a)) c.assemblies }
{
    c.assemblies.iter().position(|a| !client_record::live(*a))
}

// The place where the fragment belongs; past the places if there is none.
pub fn place_for(c: Client, o: Arrival) -> usize
    ensures { result ≡ place_for o c.assemblies }
{
    find(c, o)
        .or(lowest_free(c))
        .unwrap_or(client_record::ASSEMBLY_LIMIT)
}

// An assembly that the offer opens, before its first fragment.
#[tactic(auto, unfolding(client_reassembly::specs::Offer::opening, client_record::specs::Record::fresh_assembly))]
fn opening(o: Arrival) -> Assembly
    ensures { result ≡ opening o }
{
    Assembly {
        flow: o.flow,
        identification: o.identification,
        opened: o.time,
        ..client_record::fresh_assembly()
    }
}

// The assembly at place `p`, or the one that the offer opens there.
#[tactic(auto, unfolding(client_record::specs::Limits::assembly_limit))]
pub fn assembly_for(c: Client, p: usize, o: Arrival) -> Assembly
    requires { PlaceFor c o p }
    ensures { result ≡ assembly_for o p c.assemblies }
{
    let a = c.assemblies[p];
    if client_record::live(a) {
        a
    } else {
        opening(o)
    }
}

// ---- what becomes of a fragment

// The same range, mark and option start; that of a fragment which is not last is ignored.
#[tactic(auto, unfolding(client_reassembly::specs::Offer::alike))]
fn alike(f: Fragment, g: Fragment) -> bool
    ensures { result ≡ alike f g }
{
    let last = client_fragments::is_last(f);
    f.offset == g.offset
        && f.length == g.length
        && last == client_fragments::is_last(g)
        && (!last || f.option_start == g.option_start)
}

// Some held fragment is alike. Kept without an early end, as `client_fragments::conflicts_any`.
#[tactic(auto, unfolding(client_record::specs::Limits::fragment_limit))]
fn alike_any(a: Assembly, f: Fragment) -> bool
    ensures { result ≡ any (alike f) (held_fragments a) }
{
    let mut found = false;
    for i in 0..client_fragments::held_count(a) {
        found |= alike(f, a.fragments[i]);
    }
    found
}

// The fragment repeats a held one: `kept` is what is stored in its range.
#[tactic(auto, using(client_record::proofs::Keys::pointwise_same), unfolding(client_reassembly::specs::Offer::repeats))]
pub fn repeats(a: Assembly, f: Fragment, kept: &[u8], bytes: &[u8]) -> bool
    requires { length bytes.now ≡ length kept.now }
    ensures { result ≡ repeats a f kept.now bytes.now }
{
    alike_any(a, f) && bytes == kept
}

// The assembly with the fragment listed after the earlier ones.
#[tactic(auto, unfolding(client_record::specs::Limits::fragment_limit, client_reassembly::specs::Offer::added))]
pub fn added(mut a: Assembly, f: Fragment) -> Assembly
    requires { a.count < fragment_limit }
    ensures { result ≡ added a f }
{
    a.fragments[a.count as usize] = f;
    a.count += 1;
    a
}

// ---- the record after each fate of a fragment of `n` bytes: kept as one function for each, since a field can't be a parameter

#[tactic(auto, unfolding(client_record::specs::Limits::offered_limit, client_record::specs::Record::figure_sum, client_reassembly::specs::Offer::rejecting))]
pub fn rejecting(mut c: Client, n: u64) -> Client
    requires { Room c n }
    ensures { result ≡ rejecting n c }
{
    c.offered += n;
    c.rejected += n;
    c
}

#[tactic(auto, unfolding(client_record::specs::Limits::offered_limit, client_record::specs::Record::figure_sum, client_reassembly::specs::Offer::repeating))]
pub fn repeating(mut c: Client, n: u64) -> Client
    requires { Room c n }
    ensures { result ≡ repeating n c }
{
    c.offered += n;
    c.repeated += n;
    c
}

// The assembly `a` at place `p` ends in a conflict.
#[tactic(auto, unfolding(client_record::specs::Limits::offered_limit, client_record::specs::Limits::assembly_limit, client_record::specs::Record::figure_sum, client_reassembly::specs::Offer::conflicting))]
pub fn conflicting(mut c: Client, p: usize, a: Assembly, n: u64) -> Client
    requires { Ending c p a n }
    ensures { result ≡ conflicting p a n c }
{
    let bytes = u64::from(client_fragments::bytes_held(a));
    c.offered += n;
    c.held -= bytes;
    c.conflicted += bytes + n;
    c.assemblies[p] = client_record::fresh_assembly();
    c
}

// The assembly `a` at place `p` ends in a delivery.
#[tactic(auto, unfolding(client_record::specs::Limits::offered_limit, client_record::specs::Limits::assembly_limit, client_record::specs::Record::figure_sum, client_reassembly::specs::Offer::delivering))]
pub fn delivering(mut c: Client, p: usize, a: Assembly, n: u64) -> Client
    requires { Ending c p a n }
    ensures { result ≡ delivering p a n c }
{
    let bytes = u64::from(client_fragments::bytes_held(a));
    c.offered += n;
    c.held -= bytes;
    c.delivered += bytes + n;
    c.assemblies[p] = client_record::fresh_assembly();
    c
}

// The assembly at place `p` is `b`, with the fragment.
#[tactic(auto, unfolding(client_record::specs::Limits::offered_limit, client_record::specs::Limits::assembly_limit, client_record::specs::Record::figure_sum, client_reassembly::specs::Offer::storing))]
pub fn storing(mut c: Client, p: usize, b: Assembly, n: u64) -> Client
    requires { Storing c p n }
    ensures { result ≡ storing p b n c }
{
    c.offered += n;
    c.held += n;
    c.assemblies[p] = b;
    c
}
