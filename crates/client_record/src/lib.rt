// The record of one client: its figures and its assemblies, each with the fragments that it holds; a fresh record, and keys. What the
// fragments of an assembly are to each other stands in `client_fragments`, the record test in `client_record_test`.
#![tactic(auto)]

ghost use Rattle.std.specs.Prelude.{◌≡◌};
ghost use Rattle.client_record.specs.Record.{fresh_fragment, fresh_flow, fresh_assembly, fresh_client};
ghost use Rattle.client_record.specs.Record.{live, has_key};

// The bytes of an original that an assembly holds at most.
pub const DATAGRAM_LIMIT: usize = 8192;

// The fragments of an assembly.
pub const FRAGMENT_LIMIT: usize = 64;

// The assemblies of a client at most: the largest plan.
pub const ASSEMBLY_LIMIT: usize = 8;

// The bytes of an IPv4 address.
pub const ADDRESS: usize = 4;

// The bytes of a flow, a held fragment, an assembly and a record: their fields', with no gap between them.
pub const FLOW_SIZE: usize = 2 * ADDRESS + 4;

pub const FRAGMENT_SIZE: usize = 8;

pub const ASSEMBLY_SIZE: usize = FLOW_SIZE + 20 + FRAGMENT_LIMIT * FRAGMENT_SIZE;

pub const RECORD_SIZE: usize = 72 + ASSEMBLY_LIMIT * ASSEMBLY_SIZE;

// The clients of a table.
pub const CLIENT_LIMIT: usize = 12;

// How long an assembly lives, in milliseconds.
pub const LIFETIME: u64 = 120000;

// The bytes that a client may offer in all.
pub const OFFERED_LIMIT: u64 = 1000000000000000;

// Whose datagrams: RFC 9868 section 11.4 keys fragments by addresses, ports and identification.
#[repr(C)]
#[derive(Clone, Copy, PartialEq, Eq)]
pub struct Flow {
    pub source: [u8; ADDRESS],
    pub destination: [u8; ADDRESS],
    pub source_port: u16,
    pub destination_port: u16,
}

// A held fragment (document 01's piece): where it stands in the original, whether it is the last one, and then the option start.
// `last` is 0, or any other number for the last one, so that every bit pattern is a fragment.
#[repr(C)]
#[derive(Clone, Copy)]
pub struct Fragment {
    pub offset: u16,
    pub length: u16,
    pub option_start: u16,
    pub last: u16,
}

// The fragments of one key. It is live while it holds any: with `count` 0 every other field is as in a fresh record.
#[repr(C)]
#[derive(Clone, Copy)]
pub struct Assembly {
    pub flow: Flow,
    pub identification: u32,
    pub opened: u64,
    pub count: u64,
    pub fragments: [Fragment; FRAGMENT_LIMIT],
}

// All that is kept of one client beside its share of the store: its plan, which is how many assemblies it may have at once and how
// many places its share has; its last time, the bytes offered, and the six figures that they sum to. `conflicted` is document 01's
// clashed, `rejected` its turned away.
#[repr(C)]
#[derive(Clone, Copy)]
pub struct Client {
    pub plan: u64,
    pub time: u64,
    pub offered: u64,
    pub held: u64,
    pub delivered: u64,
    pub expired: u64,
    pub conflicted: u64,
    pub repeated: u64,
    pub rejected: u64,
    pub assemblies: [Assembly; ASSEMBLY_LIMIT],
}

// A slot that holds nothing.
#[tactic(auto, unfolding(crate::specs::Record::fresh_fragment))]
pub fn fresh_fragment() -> Fragment
    ensures { result ≡ fresh_fragment }
{
    Fragment {
        offset: 0,
        length: 0,
        option_start: 0,
        last: 0,
    }
}

#[tactic(auto, unfolding(crate::specs::Limits::address_size, crate::specs::Record::fresh_flow))]
pub fn fresh_flow() -> Flow
    ensures { result ≡ fresh_flow }
{
    Flow {
        source: [0; ADDRESS],
        destination: [0; ADDRESS],
        source_port: 0,
        destination_port: 0,
    }
}

// A place that holds nothing.
#[tactic(auto, unfolding(crate::specs::Limits::fragment_limit, crate::specs::Record::fresh_assembly))]
pub fn fresh_assembly() -> Assembly
    ensures { result ≡ fresh_assembly }
{
    Assembly {
        flow: fresh_flow(),
        identification: 0,
        opened: 0,
        count: 0,
        fragments: [fresh_fragment(); FRAGMENT_LIMIT],
    }
}

// A client of this plan before its first call.
#[tactic(auto, unfolding(crate::specs::Limits::assembly_limit, crate::specs::Record::fresh_client))]
pub fn fresh(plan: u64) -> Client
    ensures { result ≡ fresh_client plan }
{
    Client {
        plan,
        time: 0,
        offered: 0,
        held: 0,
        delivered: 0,
        expired: 0,
        conflicted: 0,
        repeated: 0,
        rejected: 0,
        assemblies: [fresh_assembly(); ASSEMBLY_LIMIT],
    }
}

// ---- keys

// The assembly has this key.
#[tactic(auto, using(crate::proofs::Keys::derived_flow), unfolding(crate::specs::Record::has_key))]
pub fn has_key(a: Assembly, flow: Flow, identification: u32) -> bool
    ensures { result ≡ has_key flow identification a }
{
    (flow == a.flow) & (identification == a.identification)
}

// ---- one assembly

// It holds fragments.
#[tactic(auto, unfolding(crate::specs::Record::live))]
pub fn live(a: Assembly) -> bool
    ensures { result ≡ live a }
{
    a.count != 0
}
