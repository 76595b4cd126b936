// Listing the options of a datagram as an encoded option list.
#![tactic(auto)]

ghost use Rattle.std.specs.Prelude.{◌≡◌, ◌+◌, ◌≤◌, length, drop};
ghost use Rattle.number_octets.specs.Octets.{Octets, overlay};
ghost use Rattle.number_varint.specs.SevenBit.{encoded};
ghost use Rattle.wire_nops.specs.Nops.{nops_of};
ghost use Rattle.wire_step.specs.Kinds.{frag};
ghost use Rattle.wire_step.specs.Step.{step_of};
ghost use Rattle.wire_step.specs.declared.Step.TheVariants.{Found};
ghost use Rattle.wire_options.specs.Walk.{item_of, walk_from, option_limit, items_of};
ghost use Rattle.list_entry.specs.Option.{encoded_option};
ghost use Rattle.list_encoding.specs.Encoding.{encoded_options};
ghost use Rattle.list_options.specs.Listing.{unworked, unworked_all, fill_of, Sound, ListedInto, content_code, Within, ContentOf, WrittenAt};

use number_offsets::PacketOffset;
use number_varint::Full;
use wire_nops::Strictness;
use wire_options::walk;
use wire_step::Step;

// How long a listing is, and the fill beside it.
#[derive(Clone, Copy)]
pub struct Listing {
    pub size: usize,
    pub fill: usize,
}

// What stands behind an option's kind: no number, one, two, or a raw body and where it stands on the wire.
#[derive(Clone, Copy)]
enum Content {
    Bare,
    One(u64),
    Two(u64, u64),
    Raw { start: usize, size: usize },
}

// An option that was met: the bytes that start with it on the wire, and what its header says. It is no FRAG, since lists have none.
#[derive(Clone, Copy)]
struct Met<'a> {
    rest: &'a [u8],
    kind: u8,
    header: usize,
    size: usize,
    ghost stands: { step_of rest.now ≡ Found kind header size },
    ghost listed: { kind ≡ frag → ⊥ },
    ghost bytes: { Octets rest.now },
}

// Lists the options that stand in `options` as on the wire; none where they are faulty.
pub fn list_options(options: &[u8], buffer: &mut [u8]) -> Result<Listing, Full>
    ensures { ListedInto (walk_from option_limit 0 options.now) buffer.old result buffer.new }
{
    let walked = walk::walk_list(
        options,
        PacketOffset(0),
        walk::OPTION_LIMIT,
        Strictness::Plain,
    );
    match walked {
        Ok(listed) => list_sound(options, listed.count, listed.fill, buffer),
        Err(_) => list_sound(&options[..0], 0, 0, buffer),
    }
}

// Lists `count` options that can all be read.
fn list_sound(options: &[u8], count: usize, fill: usize, buffer: &mut [u8]) -> Result<Listing, Full>
    requires { Sound (walk_from option_limit 0 options.now) × (count ≡ length (items_of (walk_from option_limit 0 options.now)))
        × (fill ≡ fill_of (walk_from option_limit 0 options.now)) }
    ensures { ListedInto (walk_from option_limit 0 options.now) buffer.old result buffer.new }
{
    let size = number_varint::encoded_length(count as u64) + options_size(options);
    if buffer.len() < size {
        return Err(Full);
    }
    let at = put(count as u64, buffer, 0);
    put_options(options, buffer, at);
    Ok(Listing { size, fill })
}

// How many bytes the options of `options` are when encoded.
fn options_size(options: &[u8]) -> usize
    requires { Sound (walk_from option_limit 0 options.now) }
    ensures { result ≡ length (encoded_options (unworked_all (items_of (walk_from option_limit 0 options.now)))) }
{
    let mut at = 0;
    let mut total = 0;
    while at < options.len() {
        let met = wire_step::next(&options[at..]);
        match met {
            Step::Nop => at = behind_nops(options, at),
            Step::Found { kind, header, size } => {
                let option = Met {
                    rest: &options[at..],
                    kind,
                    header,
                    size,
                };
                total += option.encoded_size();
                at += size;
            }
            _ => return total,
        }
    }
    total
}

// Writes the options of `options`, encoded, from `start`.
fn put_options(options: &[u8], buffer: &mut [u8], start: usize)
    requires { Sound (walk_from option_limit 0 options.now)
        × (start + length (encoded_options (unworked_all (items_of (walk_from option_limit 0 options.now)))) ≤ length buffer.old) }
    ensures { buffer.new
        ≡ overlay buffer.old start (encoded_options (unworked_all (items_of (walk_from option_limit 0 options.now)))) }
{
    let mut at = 0;
    let mut out = start;
    while at < options.len() {
        let met = wire_step::next(&options[at..]);
        match met {
            Step::Nop => at = behind_nops(options, at),
            Step::Found { kind, header, size } => {
                let option = Met {
                    rest: &options[at..],
                    kind,
                    header,
                    size,
                };
                out = option.put(buffer, out);
                at += size;
            }
            _ => return,
        }
    }
}

// Where the list goes on behind the NOPs at `at`, which are passed together.
fn behind_nops(options: &[u8], at: usize) -> usize
    requires { at ≤ length options.now }
    ensures { (result ≡ at + nops_of (drop at options.now)) × (result ≤ length options.now) }
{
    at + wire_nops::leading_nops(&options[at..])
}

impl Met<'_> {
    // How many bytes the option is when encoded.
    fn encoded_size(&self) -> usize
        ensures { result ≡ length (encoded_option (unworked (item_of self.now.kind self.now.header self.now.size self.now.rest.now))) }
    {
        number_varint::encoded_length(self.kind as u64) + content_size(self.rest, self.content())
    }

    // Writes the option, encoded, from `at`.
    fn put(&self, buffer: &mut [u8], at: usize) -> usize
        requires { at + length (encoded_option (unworked (item_of self.now.kind self.now.header self.now.size self.now.rest.now))) ≤ length buffer.old }
        ensures { WrittenAt (encoded_option (unworked (item_of self.now.kind self.now.header self.now.size self.now.rest.now))) buffer.old at
            result buffer.new }
    {
        let content = self.content();
        let next = put(self.kind as u64, buffer, at);
        put_content(self.rest, content, buffer, next)
    }

    // What the option has behind its kind.
    fn content(&self) -> Content
        ensures { ContentOf self.now.rest.now (item_of self.now.kind self.now.header self.now.size self.now.rest.now) result }
    {
        match self.kind {
            2 => Content::Bare,
            4 => Content::One(number_octets::get_u16(self.rest, self.header) as u64),
            5 => Content::Two(
                number_octets::get_u16(self.rest, self.header) as u64,
                self.rest[self.header + 2] as u64,
            ),
            6 | 7 => Content::One(number_octets::get_u32(self.rest, self.header) as u64),
            8 => Content::Two(
                number_octets::get_u32(self.rest, self.header) as u64,
                number_octets::get_u32(self.rest, self.header + 4) as u64,
            ),
            _ => Content::Raw {
                start: self.header,
                size: self.size - self.header,
            },
        }
    }
}

fn content_size(rest: &[u8], content: Content) -> usize
    requires { Within rest.now content }
    ensures { result ≡ length (content_code rest.now content) }
{
    match content {
        Content::Bare => 0,
        Content::One(first) => number_varint::encoded_length(first),
        Content::Two(first, second) => {
            number_varint::encoded_length(first) + number_varint::encoded_length(second)
        }
        Content::Raw { size, .. } => number_varint::encoded_length(size as u64) + size,
    }
}

fn put_content(rest: &[u8], content: Content, buffer: &mut [u8], at: usize) -> usize
    requires { Within rest.now content × (at + length (content_code rest.now content) ≤ length buffer.old) }
    ensures { WrittenAt (content_code rest.now content) buffer.old at result buffer.new }
{
    match content {
        Content::Bare => at,
        Content::One(first) => put(first, buffer, at),
        Content::Two(first, second) => {
            let next = put(first, buffer, at);
            put(second, buffer, next)
        }
        Content::Raw { start, size } => {
            let next = put(size as u64, buffer, at);
            let end = start + size;
            number_octets::copy(&rest[start..end], buffer, next);
            next + size
        }
    }
}

// Writes a number from `at`.
fn put(value: u64, buffer: &mut [u8], at: usize) -> usize
    requires { at + length (encoded value) ≤ length buffer.old }
    ensures { WrittenAt (encoded value) buffer.old at result buffer.new }
{
    number_varint::encode(value, buffer, at).unwrap()
}
