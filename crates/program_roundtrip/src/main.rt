// Writes a datagram with options, shows its bytes, reads it back, shows what the reader says, and lists the options back.
#![tactic(auto)]

use list_options::Listing;
use std::io;
use wire_datagram::reading;
use wire_nops::Strictness;
use wire_reading::{Extent, Reading};

const ROOM: usize = 128;

const TEXT: usize = 1024;

fn main(rt: HostRuntime) -> io::Result<()> {
    let source = [192, 0, 2, 1];
    let destination = [198, 51, 100, 7];
    let user = b"level 412 cm";
    // An encoded option list: three options, APC, REQ with token 300, and kind 9 with a body of two bytes.
    let list = [3, 2, 6, 0xac, 0x02, 9, 2, 0xca, 0xfe];
    let mut buffer = [0u8; ROOM];
    match list_writer::write(source, destination, 4660, 53, user, &list, 1, &mut buffer) {
        Ok(length) => show(&rt, &buffer, length, source, destination),
        Err(refusal) => {
            let number = u32::from(refusal);
            print!(rt; "refused {number}\n")
        }
    }
}

// The payload in hexadecimal, the reader's report on it, and its options as an encoded list.
fn show(
    rt: &impl Print,
    buffer: &[u8],
    length: usize,
    source: [u8; 4],
    destination: [u8; 4],
) -> io::Result<()> {
    if buffer.len() < length {
        return Ok(());
    }
    let payload = &buffer[..length];
    say(rt, b"written ")?;
    hex(rt, payload)?;
    let mut text = [0u8; TEXT];
    let end = program_report::report(payload, source, destination, &mut text);
    say(rt, &text[..end])?;
    list(rt, payload, source, destination)
}

fn list(rt: &impl Print, payload: &[u8], source: [u8; 4], destination: [u8; 4]) -> io::Result<()> {
    match reading::read(payload, source, destination, Strictness::Plain) {
        Ok(reading) => list_back(rt, payload, reading),
        Err(_) => say(rt, b"nothing to list\n"),
    }
}

// The reading as an encoded option list.
fn list_back(rt: &impl Print, payload: &[u8], reading: Reading<Extent>) -> io::Result<()> {
    let mut buffer = [0u8; ROOM];
    match list_readings::list_reading(payload, reading, &mut buffer) {
        Ok(Listing { size, fill }) => show_list(rt, &buffer, size, fill),
        Err(_) => say(rt, b"refused 8\n"),
    }
}

// The list in hexadecimal, and the fill beside it.
fn show_list(rt: &impl Print, buffer: &[u8], size: usize, fill: usize) -> io::Result<()> {
    if buffer.len() < size {
        return Ok(());
    }
    say(rt, b"listed ")?;
    hex(rt, &buffer[..size])?;
    say(rt, b"fill ")?;
    print!(rt; "{fill}")?;
    say(rt, b"\n")
}

fn hex(rt: &impl Print, bytes: &[u8]) -> io::Result<()> {
    for byte in bytes {
        print!(rt; "{byte:02x}")?;
    }
    say(rt, b"\n")
}

fn say(rt: &impl Print, text: &[u8]) -> io::Result<()> {
    rt.write_all(text)
}
