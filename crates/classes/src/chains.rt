// The elements on each line in a chain, the highest first: `heads` has for each line its first element, counted from 1,
// and an element's high half the next. 0 ends a chain.
ghost use Rattle.std.specs.Prelude.{◌≡◌, ◌+◌, ◌<◌, length, get_or, set};
ghost use Rattle.classes.specs.Halves.{half};
ghost use Rattle.classes.specs.Forest.{second_of, noted};

use crate::halves::{high, low, number};

// Puts an element in front of a line's chain.
#[tactic(auto, using(crate::specs::Halves::low_small), unfolding(crate::specs::Forest::noted))]
pub fn push(heads: &mut [u32], forest: &mut [u32], line: usize, i: usize)
    requires { (line < length heads.old)
        × (i < length forest.old)
        × (i < half)
        × (get_or heads.old line 0 < half) }
    ensures { (heads.new ≡ set heads.old line (i + 1))
        × (forest.new ≡ noted forest.old i (get_or heads.old line 0)) }
{
    forest[i] = number(low(forest[i]), heads[line]);
    heads[line] = i as u32 + 1;
}

// The element after i in its chain, counted from 1, or 0. It is no Option, since the heads and the halves that are lent
// hold the same numbers, and 0 ends a chain there too.
#[tactic(auto, unfolding(crate::specs::Forest::second_of))]
pub fn next(forest: &[u32], i: usize) -> usize
    requires { i < length forest.now }
    ensures { result ≡ second_of forest.now i }
{
    high(forest[i]) as usize
}
