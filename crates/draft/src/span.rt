// What a net may come with, and leave by.
ghost use Rattle.std.specs.Prelude.{◌≡◌, true, false, MatchOption};
ghost use Rattle.draft.specs.Answers.{good_number, good_span};

use grid::{Column, HIGHEST_NET, Net, WIDEST};

// Whether a net has a number of 1 to 511.
// Two comparisons: `contains` of a range says no more.
pub fn is_number(net: Net) -> bool
    ensures { result ≡ good_number net.0 }
{
    (1 <= net.0) & (net.0 <= HIGHEST_NET)
}

// A net with such a number, and columns for it that rise within 1 to 512.
#[derive(Clone, Copy)]
pub struct Span {
    pub net: Net,
    pub first: Column,
    pub last: Column,
    ghost good: { good_span net.0 first.0 last.0 ≡ true },
}

impl Span {
    pub fn new(net: Net, first: Column, last: Column) -> Option<Span>
        ensures { MatchOption result (good_span net.0 first.0 last.0 ≡ false)
            (λ s. (s.net ≡ net) × (s.first ≡ first) × (s.last ≡ last)) }
    {
        if is_number(net) & ((1 <= first.0) & ((first < last) & (last.0 as usize <= WIDEST))) {
            Some(Span { net, first, last })
        } else {
            None
        }
    }
}
