// One client's record by value (document 01, "The table"): its clock and its account, and the values that its calls take and answer. Where a
// fragment belongs is `client_placement`'s, the fragment call itself `client_offer::offer`; refusals 20, 21 and 32 belong to the table.
#![tactic(auto)]

ghost use Rattle.std.specs.Prelude.{◌≡◌, true, map};
ghost use Rattle.client_record.specs.Lists.{sum};
ghost use Rattle.client_record.specs.Record.{sound_record};
ghost use Rattle.client_reassembly.specs.Advance.{old, expire, lost, elapse, advance_on, account_on};
ghost use Rattle.client_reassembly.specs.Answer.{number_of};
ghost use Rattle.client_reassembly.specs.Post.{StepGives};

use client_record::{Assembly, Client, Flow};
use number_offsets::OriginalOffset;

// Why a call changes nothing (document 01's 20 to 28 and document 02's 32; 20, 21 and 32 are the table's), or a fragment is turned
// away (29, 30).
#[derive(Clone, Copy)]
pub enum Refusal {
    TableMisfit,
    NoSuchClient,
    UnsoundRecord,
    OutTooShort,
    EmptyFragment,
    EndPastLimit,
    OptionStartPastEnd,
    TimeBeforeLast,
    OfferedPastLimit,
    NoFreeAssembly,
    AssemblyFull,
    PlanOutOfRange,
}

// The refusal's number.
impl From<Refusal> for u32 {
    ghost from_gives = { λ refusal number. number ≡ number_of refusal };

    fn from(refusal: Refusal) -> u32 {
        match refusal {
            Refusal::TableMisfit => 20,
            Refusal::NoSuchClient => 21,
            Refusal::UnsoundRecord => 22,
            Refusal::OutTooShort => 23,
            Refusal::EmptyFragment => 24,
            Refusal::EndPastLimit => 25,
            Refusal::OptionStartPastEnd => 26,
            Refusal::TimeBeforeLast => 27,
            Refusal::OfferedPastLimit => 28,
            Refusal::NoFreeAssembly => 29,
            Refusal::AssemblyFull => 30,
            Refusal::PlanOutOfRange => 32,
        }
    }
}

// A client's account (document 01's bill).
#[derive(Clone, Copy)]
pub struct Figures {
    pub offered: u64,
    pub held: u64,
    pub delivered: u64,
    pub expired: u64,
    pub conflicted: u64,
    pub repeated: u64,
    pub rejected: u64,
}

// What the table's calls answer where they refuse nothing; `Reset` is that of a set-up.
#[derive(Clone, Copy)]
pub enum Answer {
    Reset,
    Stored,
    Repeated,
    Conflict,
    Delivered {
        length: usize,
        option_start: OriginalOffset,
    },
    Advanced,
    Account(Figures),
}

// The record after a call, and the answer.
#[derive(Clone, Copy)]
pub struct Step {
    pub client: Client,
    pub answer: Result<Answer, Refusal>,
}

// A fragment that a client offers (document 01's piece call), without its bytes.
#[derive(Clone, Copy)]
pub struct Arrival {
    pub time: u64,
    pub flow: Flow,
    pub identification: u32,
    pub offset: OriginalOffset,
    pub option_start: OriginalOffset,
    pub last: bool,
}

// ---- expiry

// Opened the lifetime ago or more.
fn old(a: Assembly, time: u64) -> bool
    ensures { result ≡ old time a }
{
    client_record::live(a) && client_record::LIFETIME <= time.saturating_sub(a.opened)
}

fn bytes_lost(a: Assembly, time: u64) -> u32
    ensures { result ≡ lost time a }
{
    if old(a, time) {
        client_fragments::bytes_held(a)
    } else {
        0
    }
}

// Every place with what is old made fresh.
fn expire_all(c: Client, time: u64) -> [Assembly; client_record::ASSEMBLY_LIMIT]
    ensures { result ≡ map (expire time) c.assemblies }
{
    let mut kept = c.assemblies;
    for i in 0..client_record::ASSEMBLY_LIMIT {
        if old(kept[i], time) {
            kept[i] = client_record::fresh_assembly();
        }
    }
    kept
}

// The bytes of what is old.
fn total_lost(c: Client, time: u64) -> u64
    ensures { result ≡ sum (lost time) c.assemblies }
{
    let mut total = 0;
    for a in &c.assemblies {
        total += u64::from(bytes_lost(*a, time));
    }
    total
}

// The client's time is `time`, and what is old expires.
pub fn elapsed(c: Client, time: u64) -> Client
    requires { sound_record c ≡ true }
    ensures { result ≡ elapse time c }
{
    let gone = total_lost(c, time);
    let kept = expire_all(c, time);
    Client {
        plan: c.plan,
        time,
        offered: c.offered,
        held: c.held - gone,
        delivered: c.delivered,
        expired: c.expired + gone,
        conflicted: c.conflicted,
        repeated: c.repeated,
        rejected: c.rejected,
        assemblies: kept,
    }
}

// ---- the clock and the account

// Document 01's clock, after 21.
pub fn advance(client: Client, time: u64) -> Step
    ensures { StepGives (advance_on client time) result }
{
    if !client_record_test::sound(client) {
        return Step {
            client,
            answer: Err(Refusal::UnsoundRecord),
        };
    }
    if time < client.time {
        return Step {
            client,
            answer: Err(Refusal::TimeBeforeLast),
        };
    }
    Step {
        client: elapsed(client, time),
        answer: Ok(Answer::Advanced),
    }
}

// Document 01's bill, after 21.
pub fn account(client: Client) -> Step
    ensures { StepGives (account_on client) result }
{
    if !client_record_test::sound(client) {
        return Step {
            client,
            answer: Err(Refusal::UnsoundRecord),
        };
    }
    let figures = Figures {
        offered: client.offered,
        held: client.held,
        delivered: client.delivered,
        expired: client.expired,
        conflicted: client.conflicted,
        repeated: client.repeated,
        rejected: client.rejected,
    };
    Step {
        client,
        answer: Ok(Answer::Account(figures)),
    }
}
