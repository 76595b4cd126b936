// Reads 8 address bytes, source and then destination, and a payload from standard input, and writes the text that `program_printout` makes of them.
#![tactic(auto)]

ghost use Rattle.std.specs.Prelude.{◌≡◌, ◌≤◌, length, IfOk};

use program_printout::TEXT_LIMIT;
use std::io;
use std::io::Read;

fn main(rt: HostRuntime) -> io::Result<()> {
    let mut input = program_printout::input_room();
    let got = read_full(&mut rt.stdin(), &mut input)?;
    let mut text = [0u8; TEXT_LIMIT];
    let end = program_printout::print(&input[..got], &mut text);
    rt.write_all(&text[..end])
}

// Reads until the buffer is full or the input ends, and answers how many bytes stand at its front.
fn read_full(input: &mut impl Read, buffer: &mut [u8]) -> io::Result<usize>
    ensures within { IfOk result (λ n. n ≤ length buffer.old) }
    ensures size { length buffer.new ≡ length buffer.old }
{
    let mut got = 0;
    while got < buffer.len() {
        let more = input.read(&mut buffer[got..])?;
        if more == 0 {
            break;
        }
        got += more;
    }
    Ok(got)
}
