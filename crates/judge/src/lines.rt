// The elements that touch are joined: on each column, and then on each track, those whose ranges overlap.
ghost use Rattle.std.specs.Prelude.{◌≡◌, ℕ, ◌+◌, get_or};
ghost use Rattle.classes.specs.Lines.{ChainsMade, Entered, AllJoined};
ghost use Rattle.channel.specs.Channel.{widest};
ghost use Rattle.lists.specs.Tables.{Blank};
ghost use Rattle.judge.specs.LineSteps.{ChainReady, LineReady, LinesReady, JoinReady, ranges};

use crate::case::Case;
use crate::ranges::Lines;
use grid::COLUMN_SLOTS;

// A chain of the elements on each line.
fn chain_lines<L: Lines>(case: &Case, heads: &mut [u32], forest: &mut [u32])
    requires { ChainReady case.now L.across heads.old forest.old }
    ensures { ChainsMade (ranges L.across case.now)
        forest.old heads.new forest.new }
{
    for i in 0..forest.len() {
        let r = L::range_of(case, i);
        let line = r.line as usize;
        classes::push(heads, forest, line, i);
    }
}

// Enters the ranges of the elements on a line, which its chain holds. A `while`, since the next place is read from the
// chain.
fn enter_line<L: Lines>(
    case: &Case,
    heads: &[u32],
    line: usize,
    starts: &mut [u32],
    forest: &mut [u32],
)
    requires { LineReady case.now L.across heads.now line starts.old
        forest.old }
    ensures { Entered (ranges L.across case.now) line 0
        starts.new forest.old forest.new }
{
    let mut after = heads[line] as usize;
    while after != 0 {
        let i = after - 1;
        let r = L::range_of(case, i);
        let start = r.start as usize;
        classes::enter(starts, forest, i, start, r.past);
        after = classes::next(forest, i);
    }
}

// Joins the elements whose ranges overlap on a line, for each line that has a head. Lent slices and no struct, as in
// `classes`.
fn join_lines<L: Lines>(case: &Case, heads: &mut [u32], starts: &mut [u32], forest: &mut [u32])
    requires { LinesReady case.now L.across heads.old starts.old
        forest.old }
    ensures { AllJoined (ranges L.across case.now)
        forest.old forest.new
        × ((a : ℕ) → get_or starts.new a 0 ≡ 0) }
{
    chain_lines::<L>(case, heads, forest);
    for line in 1..heads.len() {
        enter_line::<L>(case, heads, line, starts, forest);
        classes::sweep(starts, forest);
    }
}

// Joins the elements whose ranges overlap on a line, of so many lines and places, each counted from 0. `starts` is
// blank, and is left so.
pub fn join_on<L: Lines>(
    case: &Case,
    lines: usize,
    places: usize,
    starts: &mut [u32],
    forest: &mut [u32],
)
    requires { JoinReady case.now L.across lines places forest.old
        × Blank (widest + 1) starts.old }
    ensures { AllJoined (ranges L.across case.now)
        forest.old forest.new
        × Blank (widest + 1) starts.new }
{
    let mut heads = [0u32; COLUMN_SLOTS];
    join_lines::<L>(case, &mut heads[..lines], &mut starts[..places], forest);
}
