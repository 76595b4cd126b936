// Whether an encoded option list can be taken whole, and what its options take on the wire.
ghost use Rattle.std.specs.Prelude.{◌≡◌, ◌≤◌, drop};
ghost use Rattle.list_entry.specs.Option.{longest_body};
ghost use Rattle.list_encoding.specs.Encoding.{to_the_end, read_options, decoded_list};
ghost use Rattle.list_encoding.specs.Wire.{whole_length, fields_on_wire, measured, checked_answer, sized_at, measured_answer};

use list_entry::{Entry, Refusal};

// How many options a list has, and how many bytes they take on the wire.
#[derive(Clone, Copy)]
pub struct Measure {
    pub count: usize,
    pub size: usize,
}

// One option: its size on the wire, and where the next one stands.
#[derive(Drop)]
struct Measured {
    size: usize,
    next: usize,
}

// The count of a list stays below this.
pub const COUNTS: u64 = 33;

// The longest body whose option has the short form, of 254 bytes.
pub const LONGEST_SHORT_BODY: usize = 252;

pub fn check(list: &[u8]) -> Result<Measure, Refusal>
    ensures { checked_answer result ≡ measured (decoded_list list.now) }
{
    let number = list_entry::number_at(list, 0, COUNTS).ok_or(Refusal::Unreadable)?;
    check_options(list, number.next, number.value as usize)
}

// The options of a list, `count` of them from `start` to the end.
fn check_options(list: &[u8], start: usize, count: usize) -> Result<Measure, Refusal>
    requires { count ≤ 32 }
    ensures { checked_answer result ≡ measured (to_the_end (read_options count (drop start list.now))) }
{
    let mut at = start;
    let mut size = 0;
    for _ in 0..count {
        let option = measure_at(list, at)?;
        size += option.size;
        at = option.next;
    }
    if at < list.len() {
        return Err(Refusal::Unreadable);
    }
    Ok(Measure { count, size })
}

fn measure_at(list: &[u8], at: usize) -> Result<Measured, Refusal>
    ensures { measured_answer result ≡ sized_at list.now at }
{
    let found = list_entry::entry_at(list, at)?;
    match found {
        Entry::Fields { kind, next, .. } => Ok(whole(fields_length(kind), next)),
        Entry::Body { size, next, .. } => Ok(whole(size, next)),
    }
}

fn whole(body: usize, next: usize) -> Measured
    requires { body ≤ longest_body }
    ensures { (result.size ≡ whole_length body) × (result.next ≡ next) }
{
    if body <= LONGEST_SHORT_BODY {
        return Measured {
            size: body + 2,
            next,
        };
    }
    Measured {
        size: body + 4,
        next,
    }
}

// The bytes that the fields of a kind take on the wire.
pub fn fields_length(kind: u8) -> usize
    ensures { result ≡ fields_on_wire kind }
{
    match kind {
        2 => 4,
        4 => 2,
        5 => 3,
        6 | 7 => 4,
        8 => 8,
        _ => 0,
    }
}
