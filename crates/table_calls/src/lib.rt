// The table of up to 12 clients (document 01, "The table"; plans: document 02, R-8): a lent slice of records, one per client, beside a lent store
// with a share for each, as long as the client's plan says. What every call meets first is `table_admission`'s. Behind it a call takes its
// client's record out, lends the client's share of the store to the client's own rules, and puts the record back. No call asks anything of
// its arguments: every refusal is an answer.
#![tactic(auto)]

ghost use Rattle.std.specs.Prelude.{◌≡◌, [], ◌≤◌};
ghost use Rattle.client_record.specs.Limits.{assembly_limit, share_size};
ghost use Rattle.client_ledger.specs.History.{offering, advancing, accounting};
ghost use Rattle.table_rules.specs.Table.{table_of, reset_on, ask_on, Leaves};

use client_reassembly::{Answer, Arrival, Refusal};
use client_record::Client;

// The bytes of a client's share of the store.
fn share_of(client: Client) -> usize
    requires { client.plan ≤ assembly_limit }
    ensures { result ≡ share_size client.plan }
{
    client.plan as usize * client_record::DATAGRAM_LIMIT
}

// Document 01's set-up: every record is fresh, with the plan that it has, and the store stays.
pub fn reset(records: &mut [Client], store: &[u8]) -> Result<Answer, Refusal>
    ensures { Leaves (reset_on (table_of records.old store.now)) result records.new store.now [] }
{
    table_admission::admit(records, store.len(), 0)?;
    for record in records {
        *record = client_record::fresh(record.plan);
    }
    Ok(Answer::Reset)
}

// Document 01's piece call of client `k`: `out` gets an original that the fragment completes.
pub fn offer(
    records: &mut [Client],
    store: &mut [u8],
    k: usize,
    arrival: Arrival,
    bytes: &[u8],
    out: &mut [u8],
) -> Result<Answer, Refusal>
    ensures { Leaves (ask_on k (offering arrival bytes.now out.old) (table_of records.old store.old)) result records.new store.new out.new }
{
    let start = table_admission::admit(records, store.len(), k)?;
    let client = records[k];
    let end = start + share_of(client);
    let step = client_offer::offer(client, &mut store[start..end], out, arrival, bytes);
    let next = step.client;
    records[k] = next;
    step.answer
}

// Document 01's clock of client `k`.
pub fn advance(records: &mut [Client], store: &[u8], k: usize, time: u64) -> Result<Answer, Refusal>
    ensures { Leaves (ask_on k (advancing time) (table_of records.old store.now)) result records.new store.now [] }
{
    table_admission::admit(records, store.len(), k)?;
    let client = records[k];
    let step = client_reassembly::advance(client, time);
    let next = step.client;
    records[k] = next;
    step.answer
}

// Document 01's bill of client `k`.
pub fn account(records: &[Client], store: &[u8], k: usize) -> Result<Answer, Refusal>
    ensures { Leaves (ask_on k accounting (table_of records.now store.now)) result records.now store.now [] }
{
    table_admission::admit(records, store.len(), k)?;
    client_reassembly::account(records[k]).answer
}
