// The fragment call of one client (document 01, "The table": piece, from refusal 22 on): its record by value, and its share of the
// store.
#![tactic(auto)]

ghost use Rattle.std.specs.Prelude.{◌≡◌};
ghost use Rattle.number_tests.specs.Tests.{first_of};
ghost use Rattle.client_reassembly.specs.Offer.{offer_tests, fragment_of, joined, placed, taken, fragment_on};
ghost use Rattle.client_reassembly.specs.Post.{Sized, Joining, Placing, Taking, Share, Left};
ghost use Rattle.client_offer.specs.Checked.{checked_number};

use client_reassembly::{Answer, Arrival, Refusal, Step};
use client_record::{Assembly, Client, Fragment};
use number_offsets::OriginalOffset;

// ---- what is asked of an offer

// Refusals 22 to 28, with an out buffer of `out_length` bytes and a fragment of `n` bytes.
fn check(client: Client, out_length: usize, o: Arrival, n: usize) -> Result<(), Refusal>
    ensures { checked_number result ≡ first_of (offer_tests client out_length o n) }
{
    let offset = o.offset.0;
    if !client_record_test::sound(client) {
        return Err(Refusal::UnsoundRecord);
    }
    if out_length < client_record::DATAGRAM_LIMIT {
        return Err(Refusal::OutTooShort);
    }
    if n == 0 {
        return Err(Refusal::EmptyFragment);
    }
    if client_record::DATAGRAM_LIMIT < offset || client_record::DATAGRAM_LIMIT - offset < n {
        return Err(Refusal::EndPastLimit);
    }
    if o.last && offset + n < o.option_start.0 {
        return Err(Refusal::OptionStartPastEnd);
    }
    if o.time < client.time {
        return Err(Refusal::TimeBeforeLast);
    }
    if client_record::OFFERED_LIMIT - client.offered < n as u64 {
        return Err(Refusal::OfferedPastLimit);
    }
    Ok(())
}

// The offer as a fragment of `n` bytes to be held. The option start is 0 unless it is the last one.
fn fragment_of(o: Arrival, n: usize) -> Fragment
    requires { Sized o n }
    ensures { result ≡ fragment_of o n }
{
    Fragment {
        offset: o.offset.0 as u16,
        length: n as u16,
        option_start: if o.last { o.option_start.0 as u16 } else { 0 },
        last: u16::from(o.last),
    }
}

// ---- the fragment call

// A fragment whose bytes are stored joins the assembly `a` at place `p`: the original is handed out if it is whole with it.
fn join(c: Client, share: &[u8], out: &mut [u8], p: usize, a: Assembly, f: Fragment) -> Step
    requires { Joining c share.now out.old p a f }
    ensures { Left (joined c share.now out.old p a f) result share.now out.new }
{
    let b = client_placement::added(a, f);
    let n = f.length as u64;
    if client_fragments::whole(b) {
        let last = client_fragments::last_of(b);
        let length = client_fragments::end_of(last);
        let start = p * client_record::DATAGRAM_LIMIT;
        let stop = start + length;
        number_octets::copy(&share[start..stop], out, 0);
        return Step {
            client: client_placement::delivering(c, p, a, n),
            answer: Ok(Answer::Delivered {
                length,
                option_start: OriginalOffset(last.option_start as usize),
            }),
        };
    }
    Step {
        client: client_placement::storing(c, p, b, n),
        answer: Ok(Answer::Stored),
    }
}

// A fragment of these bytes for the assembly `a` at place `p`: repeated, in conflict, one too many, or taken in.
fn place(
    c: Client,
    share: &mut [u8],
    out: &mut [u8],
    p: usize,
    a: Assembly,
    f: Fragment,
    bytes: &[u8],
) -> Step
    requires { Placing c share.old out.old p a f bytes.now }
    ensures { Left (placed c share.old out.old p a f bytes.now) result share.new out.new }
{
    let n = f.length as u64;
    let start = p * client_record::DATAGRAM_LIMIT + (f.offset as usize);
    let stop = start + (f.length as usize);
    if client_placement::repeats(a, f, &share[start..stop], bytes) {
        return Step {
            client: client_placement::repeating(c, n),
            answer: Ok(Answer::Repeated),
        };
    }
    if client_fragments::conflicts_any(a, f) {
        return Step {
            client: client_placement::conflicting(c, p, a, n),
            answer: Ok(Answer::Conflict),
        };
    }
    if a.count as usize == client_record::FRAGMENT_LIMIT {
        return Step {
            client: client_placement::rejecting(c, n),
            answer: Err(Refusal::AssemblyFull),
        };
    }
    number_octets::copy(bytes, share, start);
    join(c, share, out, p, a, f)
}

// A fragment that 22 to 28 let pass, for a record that has the call's time.
fn take(c: Client, share: &mut [u8], out: &mut [u8], o: Arrival, bytes: &[u8]) -> Step
    requires { Taking c share.old out.old o bytes.now }
    ensures { Left (taken c share.old out.old o bytes.now) result share.new out.new }
{
    let f = fragment_of(o, bytes.len());
    let p = client_placement::place_for(c, o);
    let plan = c.plan as usize;
    if plan <= p {
        return Step {
            client: client_placement::rejecting(c, bytes.len() as u64),
            answer: Err(Refusal::NoFreeAssembly),
        };
    }
    let a = client_placement::assembly_for(c, p, o);
    place(c, share, out, p, a, f, bytes)
}

// Document 01's piece call, after 21, on the client's record and its share of the store.
pub fn offer(client: Client, share: &mut [u8], out: &mut [u8], o: Arrival, bytes: &[u8]) -> Step
    requires { Share client share.old }
    ensures { Left (fragment_on client share.old out.old o bytes.now) result share.new out.new }
{
    if let Err(refusal) = check(client, out.len(), o, bytes.len()) {
        return Step {
            client,
            answer: Err(refusal),
        };
    }
    let c = client_reassembly::elapsed(client, o.time);
    take(c, share, out, o, bytes)
}
