// The line of a verdict in a report (document 01, "The program").
#![tactic(auto)]

ghost use Rattle.std.specs.Prelude.{◌≡◌, ◌≤◌, length};
ghost use Rattle.program_text.specs.Put.{Put};
ghost use Rattle.program_verdict.specs.Words.{verdict_line, word_of, end_by};

use number_offsets::PacketOffset;
use wire_reading::Verdict;

pub fn put_verdict(verdict: Verdict, text: &mut [u8], at: usize) -> usize
    requires { at ≤ length text.old }
    ensures { Put text.old at (verdict_line verdict) result text.new }
{
    let named = program_text::put(b"verdict ", text, at);
    let judged = program_text::put(word_of(verdict), text, named);
    put_end(wire_faults::fault_at(verdict), text, judged)
}

// The end of the line: where the fault was met, if the verdict is one.
fn put_end(fault: Option<PacketOffset>, text: &mut [u8], at: usize) -> usize
    requires { at ≤ length text.old }
    ensures { Put text.old at (end_by fault) result text.new }
{
    match fault {
        Some(offset) => program_text::put_offset(offset, text, at),
        None => program_text::put(b"\n", text, at),
    }
}

fn word_of(verdict: Verdict) -> &'static [u8]
    ensures { result.now ≡ word_of verdict }
{
    match verdict {
        Verdict::Bare => b"none",
        Verdict::Short => b"short",
        Verdict::Pad => b"pad",
        Verdict::Unsummed => b"unsummed",
        Verdict::BadSum => b"badsum",
        Verdict::Malformed(_) => b"malformed",
        Verdict::Unsafe(_) => b"unsafe",
        Verdict::FragData(_) => b"fragdata",
        Verdict::Crowded(_) => b"crowded",
        Verdict::Tail(_) => b"tail",
        Verdict::Padded(_) => b"padded",
        Verdict::Read => b"read",
        Verdict::Piece(_) => b"piece",
    }
}
