// The ranges on one line: `starts` has for each place the range that reaches furthest of those that start there, as an
// element and the first place past it; 0 where none starts.
ghost use Rattle.std.specs.Prelude.{◌≡◌, ◌<◌, length};
ghost use Rattle.classes.specs.Halves.{half, low_half};
ghost use Rattle.classes.specs.Forest.{Forest};
ghost use Rattle.classes.specs.Sweep.{Sweepable, Met, Enters, Passes, Swept};

use crate::forest::join;
use crate::halves::{high, low, number};

// Of two ranges, the second of which starts at `start` and the first not later: joins them if they overlap, and
// answers the one that reaches further.
fn meet(forest: &mut [u32], first: u32, start: u32, second: u32) -> u32
    requires { Forest forest.old
        × (low_half first < length forest.old)
        × (low_half second < length forest.old) }
    ensures { Met first start second forest.old result forest.new }
{
    if start < high(first) {
        join(forest, low(first) as usize, low(second) as usize);
    }
    first.max(second)
}

// Enters the range of an element, from `start` to before `past`.
// 0 where none starts: docs/PROMISES.md names `enter` and `sweep` over places lent as numbers.
pub fn enter(starts: &mut [u32], forest: &mut [u32], element: usize, start: usize, past: u32)
    requires { Sweepable starts.old forest.old
        × (element < length forest.old)
        × (start < length starts.old)
        × (length starts.old < half)
        × (past < half) }
    ensures { Enters element start past starts.old forest.old starts.new
        forest.new }
{
    let range = number(element as u32, past);
    starts[start] = meet(forest, starts[start], start as u32, range);
}

// Clears a place, and joins the range that starts there to the one that reaches furthest of those before it, if they
// overlap. Answers the one that then reaches furthest.
fn pass(starts: &mut [u32], forest: &mut [u32], start: usize, furthest: u32) -> u32
    requires { Sweepable starts.old forest.old
        × (start < length starts.old)
        × (length starts.old < half)
        × (low_half furthest < length forest.old) }
    ensures { Passes start furthest starts.old forest.old result starts.new
        forest.new }
{
    let range = starts[start];
    if range == 0 {
        return furthest;
    }
    starts[start] = 0;
    meet(forest, furthest, start as u32, range)
}

// Joins the ranges that overlap, by rising start, and clears the places.
pub fn sweep(starts: &mut [u32], forest: &mut [u32])
    requires { Sweepable starts.old forest.old × (length starts.old < half) }
    ensures { Swept starts.old forest.old starts.new forest.new }
{
    let mut furthest: u32 = 0;
    for start in 0..starts.len() {
        furthest = pass(starts, forest, start, furthest);
    }
}
