// The sizes and limits that a host asks for; `host_calls` exports them.
#![tactic(auto)]

ghost use Rattle.std.specs.Prelude.{◌≡◌};
ghost use Rattle.client_record.specs.Limits.{datagram_limit, client_limit};
ghost use Rattle.host_limits.specs.Layout.{record_size};
ghost use Rattle.host_limits.specs.Plans.{share_for};

// The bytes of a record. `record_size` is the size of the layout, so no other number is proved.
pub fn record_size() -> usize
    ensures { result ≡ record_size }
{
    client_record::RECORD_SIZE
}

// The bytes of the store for a client of this plan; 0 if there is no such plan.
pub fn share_size(plan: u64) -> usize
    ensures { result ≡ share_for plan }
{
    let places = plan as usize;
    if client_record::ASSEMBLY_LIMIT < places {
        return 0;
    }
    places * client_record::DATAGRAM_LIMIT
}

// The bytes of the smallest out buffer.
pub fn out_size() -> usize
    ensures { result ≡ datagram_limit }
{
    client_record::DATAGRAM_LIMIT
}

// The most clients of a table.
pub fn client_limit() -> usize
    ensures { result ≡ client_limit }
{
    client_record::CLIENT_LIMIT
}
