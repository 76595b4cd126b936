// The values of include/wuraketozo.h, field for field, and what each answer of the crates below is among them; those of readings are in
// `host_readings` and `host_rereadings`, those of single options in `host_options`, and `host_calls` exports the calls. A refusal is 0, or
// document 01's number. What a value does not say is 0. Positions keep their types: an `OriginalOffset` is a place in an original.
#![tactic(auto)]

ghost use Rattle.std.specs.Prelude.{◌≡◌, Ok};
ghost use Rattle.list_options.specs.Listing.{listed_answer};
ghost use Rattle.list_writer.specs.Answer.{written_answer};
ghost use Rattle.client_reassembly.specs.Answer.{figures_of, reply_of};
ghost use Rattle.table_receiver.specs.Receive.{fate_in};
ghost use Rattle.host_values.specs.Lists.{host_listing, host_written};
ghost use Rattle.host_values.specs.Answer.{no_figures, figures_from, plain, handed_out, accounted, host_answer, arrival_from};
ghost use Rattle.host_values.specs.Answer.{read_alone, offered_alone, host_fate};

use client_reassembly::Arrival;
use client_record::Flow;
use host_readings::Reading;
use number_offsets::OriginalOffset;
use number_varint::Full;

// An IPv4 address.
#[repr(C)]
#[derive(Clone, Copy)]
pub struct Address {
    pub octets: [u8; 4],
}

// What `wuraketozo_list` and `wuraketozo_relist` answer.
#[repr(C)]
#[derive(Clone, Copy)]
pub struct Listing {
    pub refusal: u32,
    pub size: usize,
    pub fill: usize,
}

// What `wuraketozo_write` answers.
#[repr(C)]
#[derive(Clone, Copy)]
pub struct Written {
    pub refusal: u32,
    pub size: usize,
}

// A client's account.
#[repr(C)]
#[derive(Clone, Copy)]
pub struct Figures {
    pub offered: u64,
    pub held: u64,
    pub delivered: u64,
    pub expired: u64,
    pub conflicted: u64,
    pub repeated: u64,
    pub rejected: u64,
}

// What the table's calls answer.
#[repr(C)]
#[derive(Clone, Copy)]
pub struct Answer {
    pub refusal: u32,
    pub outcome: u32,
    pub length: usize,
    pub option_start: OriginalOffset,
    pub figures: Figures,
}

// A fragment that is offered, without its bytes.
#[repr(C)]
#[derive(Clone, Copy)]
pub struct Fragment {
    pub time: u64,
    pub flow: Flow,
    pub identification: u32,
    pub place: OriginalOffset,
    pub option_start: OriginalOffset,
    pub last: u32,
}

// What `wuraketozo_receive` answers.
#[repr(C)]
#[derive(Clone, Copy)]
pub struct Received {
    pub what: u32,
    pub reading: Reading,
    pub answer: Answer,
}

// ---- lists and payloads

impl From<Result<list_options::Listing, Full>> for Listing {
    ghost from_gives = { λ listed value. value ≡ host_listing (listed_answer listed) };

    fn from(listed: Result<list_options::Listing, Full>) -> Listing {
        match listed {
            Ok(list_options::Listing { size, fill }) => Listing {
                refusal: 0,
                size,
                fill,
            },
            Err(_) => Listing {
                refusal: 8,
                size: 0,
                fill: 0,
            },
        }
    }
}

impl From<Result<usize, list_writer::Refusal>> for Written {
    ghost from_gives = { λ written value. value ≡ host_written (written_answer written) };

    fn from(written: Result<usize, list_writer::Refusal>) -> Written {
        match written {
            Ok(size) => Written { refusal: 0, size },
            Err(refusal) => Written {
                refusal: u32::from(refusal),
                size: 0,
            },
        }
    }
}

// ---- the table

fn no_figures() -> Figures
    ensures { result ≡ no_figures }
{
    Figures {
        offered: 0,
        held: 0,
        delivered: 0,
        expired: 0,
        conflicted: 0,
        repeated: 0,
        rejected: 0,
    }
}

impl From<client_reassembly::Figures> for Figures {
    ghost from_gives = { λ figures value. value ≡ figures_from (figures_of figures) };

    fn from(figures: client_reassembly::Figures) -> Figures {
        Figures {
            offered: figures.offered,
            held: figures.held,
            delivered: figures.delivered,
            expired: figures.expired,
            conflicted: figures.conflicted,
            repeated: figures.repeated,
            rejected: figures.rejected,
        }
    }
}

// An answer with a refusal or an outcome alone.
fn plain(refusal: u32, outcome: u32) -> Answer
    ensures { result ≡ plain refusal outcome }
{
    Answer {
        refusal,
        outcome,
        length: 0,
        option_start: OriginalOffset(0),
        figures: no_figures(),
    }
}

fn handed_out(length: usize, option_start: OriginalOffset) -> Answer
    ensures { result ≡ handed_out length option_start.0 }
{
    Answer {
        refusal: 0,
        outcome: 5,
        length,
        option_start,
        figures: no_figures(),
    }
}

fn accounted(figures: client_reassembly::Figures) -> Answer
    ensures { result ≡ accounted (figures_of figures) }
{
    Answer {
        refusal: 0,
        outcome: 7,
        length: 0,
        option_start: OriginalOffset(0),
        figures: Figures::from(figures),
    }
}

impl From<client_reassembly::Answer> for Answer {
    ghost from_gives = { λ answer value. value ≡ host_answer (reply_of (Ok answer)) };

    fn from(answer: client_reassembly::Answer) -> Answer {
        match answer {
            client_reassembly::Answer::Reset => plain(0, 1),
            client_reassembly::Answer::Stored => plain(0, 2),
            client_reassembly::Answer::Repeated => plain(0, 3),
            client_reassembly::Answer::Conflict => plain(0, 4),
            client_reassembly::Answer::Delivered {
                length,
                option_start,
            } => handed_out(length, option_start),
            client_reassembly::Answer::Advanced => plain(0, 6),
            client_reassembly::Answer::Account(figures) => accounted(figures),
        }
    }
}

impl From<Result<client_reassembly::Answer, client_reassembly::Refusal>> for Answer {
    ghost from_gives = { λ answer value. value ≡ host_answer (reply_of answer) };

    fn from(answer: Result<client_reassembly::Answer, client_reassembly::Refusal>) -> Answer {
        match answer {
            Ok(answer) => Answer::from(answer),
            Err(refusal) => plain(u32::from(refusal), 0),
        }
    }
}

// The fragment as the table takes it: with any `last` but 0 it is the last one.
impl From<Fragment> for Arrival {
    ghost from_gives = { λ fragment arrival. arrival ≡ arrival_from fragment };

    fn from(fragment: Fragment) -> Arrival {
        Arrival {
            time: fragment.time,
            flow: fragment.flow,
            identification: fragment.identification,
            offset: fragment.place,
            option_start: fragment.option_start,
            last: fragment.last != 0,
        }
    }
}

// ---- one call for each datagram

// What is no fragment.
fn read_alone(what: u32, reading: Reading) -> Received
    ensures { result ≡ read_alone what reading }
{
    Received {
        what,
        reading,
        answer: plain(0, 0),
    }
}

fn offered_alone(answer: Answer) -> Received
    ensures { result ≡ offered_alone answer }
{
    Received {
        what: 2,
        reading: host_readings::unread(0),
        answer,
    }
}

impl From<Result<table_receiver::Received, wire_datagram::reading::Refusal>> for Received {
    ghost from_gives = { λ received value. value ≡ host_fate (fate_in received) };

    fn from(
        received: Result<table_receiver::Received, wire_datagram::reading::Refusal>,
    ) -> Received {
        match received {
            Err(refusal) => read_alone(0, host_readings::unread(u32::from(refusal))),
            Ok(table_receiver::Received::Datagram(reading)) => read_alone(
                1,
                Reading::from(reading),
            ),
            Ok(table_receiver::Received::Fragment(answer)) => offered_alone(Answer::from(answer)),
        }
    }
}
