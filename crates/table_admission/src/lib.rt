// What every call on a table meets first, in this order: document 01's 20 for the record count, document 02's 32 for the plans, 20 for the
// store's length, and then 21. It looks at the plan of every record and copies no record.
#![tactic(auto)]

ghost use Rattle.std.specs.Prelude.{◌≡◌, length};
ghost use Rattle.table_rules.specs.Table.{counted, in_range, plans_of};
ghost use Rattle.table_admission.specs.Admission.{Places, Grants, Admits};

use client_reassembly::Refusal;
use client_record::Client;

// ---- one test each

fn counted(count: usize) -> bool
    ensures { result ≡ counted count }
{
    1 <= count && count <= client_record::CLIENT_LIMIT
}

fn in_range(plan: u64) -> bool
    ensures { result ≡ in_range plan }
{
    1 <= plan && plan <= client_record::ASSEMBLY_LIMIT as u64
}

// With `count` records whose plans have `places` places, `before` of them in front of client `k`'s: 20 for a store of `bytes` bytes, 21, or
// where its share starts.
fn by_store(
    count: usize,
    before: usize,
    places: usize,
    bytes: usize,
    k: usize,
) -> Result<usize, Refusal>
    requires { Places before places }
    ensures { Grants count before places bytes k result }
{
    if bytes != places * client_record::DATAGRAM_LIMIT {
        return Err(Refusal::TableMisfit);
    }
    if count <= k {
        return Err(Refusal::NoSuchClient);
    }
    Ok(before * client_record::DATAGRAM_LIMIT)
}

// The tests of a call of client `k` on these records and a store of `bytes` bytes: a refusal, or the first byte of the client's share of
// the store.
pub fn admit(records: &[Client], bytes: usize, k: usize) -> Result<usize, Refusal>
    ensures { Admits (record { count = length records.now; bytes = bytes; plans = plans_of records.now }) k result }
{
    if !counted(records.len()) {
        return Err(Refusal::TableMisfit);
    }
    let mut before = 0;
    let mut places = 0;
    for (i, client) in records.iter().enumerate() {
        if !in_range(client.plan) {
            return Err(Refusal::PlanOutOfRange);
        }
        let own = client.plan as usize;
        if i < k {
            before += own;
        }
        places += own;
    }
    by_store(records.len(), before, places, bytes, k)
}
