// One option of an encoded option list.
#![tactic(auto)]

ghost use Rattle.std.specs.Prelude.{◌≡◌, ◌+◌, ◌≤◌, length, drop};
ghost use Rattle.list_entry.specs.Shape.{raw, shape_of};
ghost use Rattle.list_entry.specs.Option.{read_kind};
ghost use Rattle.list_entry.specs.Answer.{entry_answer, entry_at, field_answer, value_answer, number_at, spelled_before, fields_before, read_one, read_two};

use number_varint::Decoded;

// What a list holds at a position: an option with its fields, 0 where it has fewer than two, or with the place of its raw body; and where the
// next one stands.
#[derive(Clone, Copy)]
pub enum Entry {
    Fields {
        kind: u8,
        first: u32,
        second: u32,
        next: usize,
    },
    Body {
        kind: u8,
        start: usize,
        size: usize,
        next: usize,
    },
}

// Why a list can't be taken: a number or a body that can't be read, or a kind that no list may have.
#[derive(Clone, Copy)]
pub enum Refusal {
    Unreadable,
    Forbidden,
}

// A field of an option, and where what follows it stands.
#[derive(Clone, Copy)]
struct Field {
    value: u32,
    next: usize,
}

// Numbers that stand for something stay below these.
const KINDS: u64 = 256;

const BODIES: u64 = 65_532;

// The largest numbers that fields of so many bits hold.
const BITS_8: u32 = 0xFF;

const BITS_16: u32 = 0xFFFF;

const BITS_32: u32 = 0xFFFF_FFFF;

// The option that stands at `at`.
pub fn entry_at(list: &[u8], at: usize) -> Result<Entry, Refusal>
    ensures { entry_answer result ≡ entry_at list.now at }
{
    let number = number_at(list, at, KINDS).ok_or(Refusal::Unreadable)?;
    kind_at(list, number.next, number.value as u8)
}

// The number below `limit` that stands at `at`.
pub fn number_at(list: &[u8], at: usize, limit: u64) -> Option<Decoded>
    ensures { field_answer result ≡ number_at limit list.now at }
{
    let decoded = number_varint::decode(list, at).ok()?;
    if decoded.value < limit {
        return Some(decoded);
    }
    None
}

// What stands behind the kind of an option: the table of document 01.
fn kind_at(list: &[u8], at: usize, kind: u8) -> Result<Entry, Refusal>
    requires { at ≤ length list.now }
    ensures { entry_answer result ≡ spelled_before (length list.now) (read_kind kind (drop at list.now)) }
{
    match kind {
        0 | 1 | 3 => Err(Refusal::Forbidden),
        2 => Ok(Entry::Fields {
            kind,
            first: 0,
            second: 0,
            next: at,
        }),
        4 => one_field(list, at, kind, BITS_16),
        5 => two_fields(list, at, kind, BITS_16, BITS_8),
        6 | 7 => one_field(list, at, kind, BITS_32),
        8 => two_fields(list, at, kind, BITS_32, BITS_32),
        9..=191 => raw_body(list, at, kind),
        192..=255 => Err(Refusal::Forbidden),
    }
}

// The field of at most `largest` that stands at `at`.
fn field_at(list: &[u8], at: usize, largest: u32) -> Result<Field, Refusal>
    ensures { value_answer result ≡ number_at (largest + 1) list.now at }
{
    let number = number_at(list, at, u64::from(largest) + 1).ok_or(Refusal::Unreadable)?;
    Ok(Field {
        value: number.value as u32,
        next: number.next,
    })
}

// An option of one field.
fn one_field(list: &[u8], at: usize, kind: u8, largest: u32) -> Result<Entry, Refusal>
    ensures { entry_answer result
        ≡ fields_before (length list.now) kind (read_one (largest + 1) (drop at list.now)) }
{
    let field = field_at(list, at, largest)?;
    Ok(Entry::Fields {
        kind,
        first: field.value,
        second: 0,
        next: field.next,
    })
}

// An option of two fields, the first of at most `largest`, and the second of at most `other`.
fn two_fields(list: &[u8], at: usize, kind: u8, largest: u32, other: u32) -> Result<Entry, Refusal>
    ensures { entry_answer result
        ≡ fields_before (length list.now) kind (read_two (largest + 1) (other + 1) (drop at list.now)) }
{
    let first = field_at(list, at, largest)?;
    let second = field_at(list, first.next, other)?;
    Ok(Entry::Fields {
        kind,
        first: first.value,
        second: second.value,
        next: second.next,
    })
}

// An option with a raw body: the body's length, and the body.
fn raw_body(list: &[u8], at: usize, kind: u8) -> Result<Entry, Refusal>
    requires { shape_of kind ≡ raw }
    ensures { entry_answer result ≡ spelled_before (length list.now) (read_kind kind (drop at list.now)) }
{
    let number = number_at(list, at, BODIES).ok_or(Refusal::Unreadable)?;
    let size = number.value as usize;
    if list.len() - number.next < size {
        return Err(Refusal::Unreadable);
    }
    Ok(Entry::Body {
        kind,
        start: number.next,
        size,
        next: number.next + size,
    })
}
