// The report on an IPv4 payload, as the program prints it (document 01, "The program"). It is read plainly.
#![tactic(auto)]

ghost use Rattle.std.specs.Prelude.{◌≡◌, ◌≤◌, length};
ghost use Rattle.program_text.specs.Put.{Put};
ghost use Rattle.program_report.specs.Report.{listing_of, reading_text, report_of};
ghost use Rattle.program_report.specs.Sound.{Listable, Sound};

use wire_datagram::reading;
use wire_nops::Strictness;
use wire_reading::{Extent, Reading};

// Writes what fits of the report to the front of `text`, and answers where it ends.
pub fn report(payload: &[u8], source: [u8; 4], destination: [u8; 4], text: &mut [u8]) -> usize
    ensures { Put text.old 0 (report_of payload.now source destination) result text.new }
{
    match reading::read(payload, source, destination, Strictness::Plain) {
        Ok(reading) => put_reading(payload, reading, text),
        Err(refusal) => program_text::put_line(b"refused ", u32::from(refusal) as usize, text, 0),
    }
}

// The options follow only where the verdict is "read".
fn put_reading(payload: &[u8], reading: Reading<Extent>, text: &mut [u8]) -> usize
    requires { Sound payload.now reading }
    ensures { Put text.old 0 (reading_text payload.now reading) result text.new }
{
    let user = reading.user;
    let verdict = reading.verdict;
    let counted = program_text::put_line(b"user ", user.to.0 - user.from.0, text, 0);
    let judged = program_verdict::put_verdict(verdict, text, counted);
    if wire_reading::is_read(verdict) {
        return put_listing(payload, reading.options, reading.fill, text, judged);
    }
    judged
}

// The options of a list, and the fill.
fn put_listing(payload: &[u8], options: Extent, fill: usize, text: &mut [u8], at: usize) -> usize
    requires { (at ≤ length text.old) × Listable payload.now options }
    ensures { Put text.old at (listing_of payload.now options fill) result text.new }
{
    let from = options.from;
    let list = &payload[from.0..options.to.0];
    let listed = program_lines::put_items(list, from, text, at);
    program_text::put_line(b"fill ", fill, text, listed)
}
