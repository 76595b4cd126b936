// The start of a surplus area: pad and option checksum (RFC 9868 sections 8 and 9).
#![tactic(auto)]

ghost use Rattle.std.specs.Prelude.{◌≡◌, ◌+◌, ◌≤◌, length};
ghost use Rattle.number_checksum.specs.Checksum.{folded, word_sum};
ghost use Rattle.wire_surplus.specs.Surplus.{pad_of, summed_of, start_of};

// Why an area has no option list.
#[derive(Clone, Copy)]
pub enum Unlisted {
    Empty,
    // Fewer than two bytes behind the pad.
    Short,
    // The pad is not zero.
    Pad,
    // No option checksum although there is a UDP checksum.
    Unsummed,
    BadSum,
}

// How many bytes into an area that is not empty its option list starts. `odd`: the area starts at an odd offset from the UDP header. `unused`: the
// UDP checksum is zero.
pub fn start_of(area: &[u8], odd: bool, unused: bool) -> Result<usize, Unlisted>
    requires { (1 ≤ length area.now) × (length area.now ≤ 65535) }
    ensures { result ≡ start_of odd unused area.now }
{
    if odd {
        if area.len() < 3 {
            return Err(Unlisted::Short);
        }
        if area[0] != 0 {
            return Err(Unlisted::Pad);
        }
        return summed(area, 1, odd, unused);
    }
    if area.len() < 2 {
        return Err(Unlisted::Short);
    }
    summed(area, 0, odd, unused)
}

// What the option checksum behind the pad says.
fn summed(area: &[u8], pad: usize, odd: bool, unused: bool) -> Result<usize, Unlisted>
    requires { (pad ≡ pad_of odd) × (pad + 2 ≤ length area.now) × (length area.now ≤ 65535) }
    ensures { result ≡ summed_of odd unused area.now }
{
    let ocs = number_octets::get_u16(area, pad);
    if ocs == 0 {
        if unused {
            return Ok(pad + 2);
        }
        return Err(Unlisted::Unsummed);
    }
    if area_sum(area, odd) == 65535 {
        return Ok(pad + 2);
    }
    Err(Unlisted::BadSum)
}

// The sum over the area's length and the area.
fn area_sum(area: &[u8], odd: bool) -> u16
    requires { length area.now ≤ 65535 }
    ensures { result ≡ folded (length area.now + word_sum odd area.now) }
{
    number_checksum::add_block(area.len() as u64, area, odd)
}
