// What the program prints of its input (document 01, "The program").
#![tactic(auto)]

ghost use Rattle.std.specs.Prelude.{◌≡◌, length};
ghost use Rattle.program_printout.specs.Input.{input_limit, text_of, Holds};

// Both addresses.
const ADDRESSES: usize = 8;

// The refusal of a payload that is too short.
const TOO_SHORT: usize = 1;

// The addresses, and one byte more than a payload may have.
const INPUT_LIMIT: usize = 65524;

// No report is longer.
pub const TEXT_LIMIT: usize = 140000;

// Room for the most bytes that the program reads.
pub fn input_room() -> [u8; INPUT_LIMIT]
    ensures { length result ≡ input_limit }
{
    [0; INPUT_LIMIT]
}

// The program's text for its whole input: source, destination and payload. Missing bytes are refusal 1.
pub fn print(input: &[u8], text: &mut [u8; TEXT_LIMIT]) -> usize
    ensures { Holds text.old (text_of input.now) result text.new }
{
    if input.len() < ADDRESSES {
        return program_text::put_line(b"refused ", TOO_SHORT, text, 0);
    }
    let source = [input[0], input[1], input[2], input[3]];
    let destination = [input[4], input[5], input[6], input[7]];
    program_report::report(&input[ADDRESSES..], source, destination, text)
}
