// One step of the walk: what stands at the front of the list that remains.
#![tactic(auto)]

ghost use Rattle.std.specs.Prelude.{◌≡◌, ◌≤◌, length};
ghost use Rattle.wire_step.specs.Kinds.{class_of};
ghost use Rattle.wire_step.specs.Step.{header_of, extended, step_of};
ghost use Rattle.wire_step.specs.Sizes.{fits, sized_step};

// The kinds that rules name. A kind stays a number: each of the 256 bytes is one, and rules speak of ranges of them.
pub const APC: u8 = 2;

pub const FRAG: u8 = 3;

// What a kind byte says of its option: the end, filler, one of two whole lengths, any length, or unsafe.
#[derive(Clone, Copy)]
pub enum Class {
    EndOfList,
    NoOperation,
    Fixed(usize, usize),
    Varying,
    Unsafe,
}

// An option's header: its own size and the whole length of the option.
#[derive(Clone, Copy)]
pub struct Header {
    pub size: usize,
    pub whole: usize,
}

#[derive(Clone, Copy)]
pub enum Step {
    // Nothing is left.
    End,
    // End of Options List: no option stands behind it.
    Eol,
    Nop,
    // An option: its fields or body stand behind a header of `header` bytes; the next one stands `size` bytes on.
    Found {
        kind: u8,
        header: usize,
        size: usize,
    },
    Malformed,
    // A kind from 192 to 255.
    Outlawed,
}

// The kinds that have no header are told apart first: the class of the others says which lengths they may have.
pub fn next(rest: &[u8]) -> Step
    ensures { result ≡ step_of rest.now }
{
    if rest.len() == 0 {
        return Step::End;
    }
    let kind = rest[0];
    match kind {
        0 => Step::Eol,
        1 => Step::Nop,
        2..=191 => sized_step(kind, header_of(rest)),
        192..=255 => Step::Outlawed,
    }
}

// An option with a header, where it has a sound one.
fn sized_step(kind: u8, header: Option<Header>) -> Step
    ensures { result ≡ sized_step (class_of kind) kind header }
{
    match header {
        Some(Header { size, whole }) if fits(class_of(kind), whole) => Step::Found {
            kind,
            header: size,
            size: whole,
        },
        _ => Step::Malformed,
    }
}

// Whether an option of this class may have `whole` bytes.
fn fits(class: Class, whole: usize) -> bool
    ensures { result ≡ fits class whole }
{
    match class {
        Class::Fixed(a, b) => whole == a || whole == b,
        Class::Varying => true,
        Class::EndOfList | Class::NoOperation | Class::Unsafe => false,
    }
}

// RFC 9868 section 10 and document 01's table.
fn class_of(kind: u8) -> Class
    ensures { result ≡ class_of kind }
{
    match kind {
        0 => Class::EndOfList,
        1 => Class::NoOperation,
        APC => Class::Fixed(6, 6),
        FRAG => Class::Fixed(10, 12),
        4 => Class::Fixed(4, 4),
        5 => Class::Fixed(5, 5),
        6 | 7 => Class::Fixed(6, 6),
        8 => Class::Fixed(10, 10),
        9..=191 => Class::Varying,
        192..=255 => Class::Unsafe,
    }
}

// The header at the front: none where the option can't be. The length byte is looked at before the extended form is: an option of that form has 255 bytes at least.
fn header_of(rest: &[u8]) -> Option<Header>
    ensures { result ≡ header_of rest.now }
{
    if rest.len() < 2 {
        return None;
    }
    let short = usize::from(rest[1]);
    if short < 2 {
        return None;
    }
    if rest.len() < short {
        return None;
    }
    if short == 255 {
        return extended(rest);
    }
    Some(Header {
        size: 2,
        whole: short,
    })
}

// The extended form: a length byte of 255, and the whole length in the next two bytes.
fn extended(rest: &[u8]) -> Option<Header>
    requires { 255 ≤ length rest.now }
    ensures { result ≡ extended rest.now }
{
    let whole = usize::from(number_octets::get_u16(rest, 2));
    if whole < 255 {
        return None;
    }
    if rest.len() < whole {
        return None;
    }
    Some(Header { size: 4, whole })
}
