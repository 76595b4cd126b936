// A table of vectors. A record is a name, a blank, a length byte and so many bytes; the name's first letter says what they are.
ghost use Rattle.std.specs.Prelude.{◌≤◌, ◌<◌, length, IfOk};

use crate::numbers;
use std::io;

// Prints a line for each record.
pub fn run(rt: &impl Print, table: &[u8]) -> io::Result<()> {
    let mut at = 0;
    while at < table.len() {
        at = record(rt, table, at)?;
    }
    Ok(())
}

// Prints the line of the record at `at`: its name, and what came out. Answers where the next one stands.
fn record(rt: &impl Print, table: &[u8], at: usize) -> io::Result<usize>
    requires { at < length table.now }
    ensures { IfOk result (λ next. (at < next) × (next ≤ length table.now)) }
{
    let gap = blank(table, at);
    if table.len() - gap < 2 {
        return Ok(table.len());
    }
    let from = gap + 2;
    let size = usize::from(table[gap + 1]);
    if table.len() - from < size {
        return Ok(table.len());
    }
    let end = from + size;
    numbers::text(rt, &table[at..gap])?;
    answer(rt, table[at], &table[from..end])?;
    numbers::text(rt, b"\n")?;
    Ok(end)
}

// The first blank from `at` on.
fn blank(table: &[u8], at: usize) -> usize
    requires { at ≤ length table.now }
    ensures { (at ≤ result) × (result ≤ length table.now) }
{
    match table[at..].iter().position(|byte| *byte == b' ') {
        Some(i) => at + i,
        None => table.len(),
    }
}

// crc32c, sum, prefixes, add-word, number, encoding
fn answer(rt: &impl Print, letter: u8, bytes: &[u8]) -> io::Result<()> {
    match letter {
        b'c' => numbers::crc(rt, bytes),
        b's' => numbers::sum(rt, bytes),
        b'p' => numbers::prefixes(rt, bytes),
        b'a' => numbers::words(rt, bytes),
        b'n' => numbers::decoded(rt, bytes, 0),
        _ => numbers::encoding(rt, bytes),
    }
}
