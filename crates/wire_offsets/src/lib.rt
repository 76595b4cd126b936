// Walking a list option by option, and where each stands (document 02, R-7).
#![tactic(auto)]

ghost use Rattle.std.specs.Prelude.{◌≡◌};
ghost use Rattle.wire_offsets.specs.Next.{next_of};

use wire_step::Step;

// An option: its kind byte stands `at` bytes into the list, its fields or body behind a header of `header` bytes, what comes next `size` bytes on.
// The kind stands between the two, so that a caller does not load them as one: they are stored one by one, and such a load has to wait.
#[derive(Clone, Copy)]
pub struct Found {
    pub at: usize,
    pub header: usize,
    pub kind: u8,
    pub size: usize,
}

// The first option of a list in which no fault is, behind its NOPs: none where no option comes any more. The list behind that option starts
// `at + size` bytes on.
pub fn next_option(list: &[u8]) -> Option<Found>
    ensures { result ≡ next_of list.now }
{
    let at = wire_nops::leading_nops(list);
    let Step::Found { kind, header, size } = wire_step::next(&list[at..]) else {
        return None;
    };
    Some(Found {
        at,
        header,
        kind,
        size,
    })
}
