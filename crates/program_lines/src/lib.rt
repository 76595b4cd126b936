// The lines of an option list.
#![tactic(auto)]

ghost use Rattle.std.specs.Prelude.{◌≡◌, true, ◌++◌, ◌∷◌, [], ◌+◌, ◌-◌, ◌≤◌, ◌<◌, length};
ghost use Rattle.number_octets.specs.Octets.{part};
ghost use Rattle.wire_step.specs.Step.{step_of};
ghost use Rattle.wire_step.specs.declared.Step.{Step};
ghost use Rattle.wire_options.specs.Walk.{item_of, walk_from, option_limit, options_of};
ghost use Rattle.program_text.specs.Digits.{decimal_of};
ghost use Rattle.program_text.specs.Characters.{blank};
ghost use Rattle.program_text.specs.Put.{Put};
ghost use Rattle.program_lines.specs.Lines.{body_of, fields_of, option_line, option_lines, is_listed};

use number_offsets::PacketOffset;
use wire_offsets::Found;

// A line for each option of a list in which the walk meets no fault. The list stands at packet offset `base`.
pub fn put_items(list: &[u8], base: PacketOffset, text: &mut [u8], at: usize) -> usize
    requires { (at ≤ length text.old) × (is_listed (walk_from option_limit 0 list.now) ≡ true) × (base.0 + length list.now < 18446744073709551616) }
    ensures { Put text.old at
        (option_lines (base.0 + length list.now) (options_of (walk_from option_limit 0 list.now))) result text.new }
{
    let mut end = at;
    let mut from = 0;
    while let Some(found) = wire_offsets::next_option(&list[from..]) {
        from += found.at;
        let offset = PacketOffset(base.0 + from);
        end = put_item(&list[from..], offset, found, text, end);
        from += found.size;
    }
    end
}

// The option at the front of a list, which stands at `offset`.
fn put_item(rest: &[u8], offset: PacketOffset, found: Found, text: &mut [u8], at: usize) -> usize
    requires { (at ≤ length text.old) × (step_of rest.now ≡ Step.Found found.kind found.header found.size) }
    ensures { Put text.old at (option_line offset (item_of found.kind found.header found.size rest.now)) result text.new }
{
    let named = program_text::put(b"kind ", text, at);
    let numbered = program_text::put_decimal(found.kind as usize, text, named);
    let shown = put_fields(rest, found, text, numbered);
    program_text::put_offset(offset, text, shown)
}

// Its numbers by kind, or its body.
fn put_fields(rest: &[u8], found: Found, text: &mut [u8], at: usize) -> usize
    requires { (at ≤ length text.old) × (step_of rest.now ≡ Step.Found found.kind found.header found.size) }
    ensures { Put text.old at (fields_of found.kind (part found.header (found.size - found.header) rest.now)) result text.new }
{
    let header = found.header;
    match found.kind {
        4 => put_number(number_octets::get_u16(rest, header) as usize, text, at),
        5 => {
            let first = put_number(number_octets::get_u16(rest, header) as usize, text, at);
            put_number(rest[header + 2] as usize, text, first)
        }
        8 => {
            let first = put_number(number_octets::get_u32(rest, header) as usize, text, at);
            put_number(
                number_octets::get_u32(rest, header + 4) as usize,
                text,
                first,
            )
        }
        2 | 6 | 7 => put_number(number_octets::get_u32(rest, header) as usize, text, at),
        _ => put_body(&rest[header..found.size], text, at),
    }
}

fn put_number(n: usize, text: &mut [u8], at: usize) -> usize
    requires { at ≤ length text.old }
    ensures { Put text.old at ((blank ∷ []) ++ decimal_of n) result text.new }
{
    let end = program_text::put(b" ", text, at);
    program_text::put_decimal(n, text, end)
}

// Of an empty body nothing, not even a blank.
fn put_body(body: &[u8], text: &mut [u8], at: usize) -> usize
    requires { at ≤ length text.old }
    ensures { Put text.old at (body_of body.now) result text.new }
{
    if body.is_empty() {
        return at;
    }
    let end = program_text::put(b" ", text, at);
    program_text::put_hex(body, text, end)
}
