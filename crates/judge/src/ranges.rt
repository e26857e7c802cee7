// Where an element, a pin place or a piece, lies on a line of the grid: on its column, or on its track.
ghost use Rattle.std.specs.Prelude.{◌≡◌, ◌<◌, Bool, true, false};
ghost use Rattle.judge.specs.Ranges.{pin_range, cover_column, cover_track};
ghost use Rattle.judge.specs.LineSteps.{elements, ranges};

use crate::boxes::{Cover, pick};
use crate::case::Case;
use classes::Range;
use grid::{BRANCH, TRUNK};

// A pin stands in a row of its column; a place without a pin lies on no line.
#[tactic(auto, unfolding(crate::specs::Ranges::pin_range))]
fn pin_range(net: u32, column: usize, row: u32) -> Range
    requires { (column < 1024) × (row < 1024) }
    ensures { result ≡ pin_range net column row }
{
    Range {
        line: pick(0 < net, column as u32, 0),
        start: row,
        past: row + 1,
    }
}

// The rows that a piece covers in its column, if it meets branches.
#[tactic(auto, unfolding(crate::specs::Ranges::cover_column))]
fn cover_in_column(c: Cover) -> Range
    requires { c.high.0 < 1024 }
    ensures { result ≡ cover_column c }
{
    Range {
        line: pick(grid::kinds_meet(c.kind, BRANCH), c.left.0, 0),
        start: c.low.0,
        past: c.high.0 + 1,
    }
}

// The columns that a piece covers on its track, if it meets trunks.
#[tactic(auto, unfolding(crate::specs::Ranges::cover_track))]
fn cover_on_track(c: Cover) -> Range
    requires { c.right.0 < 1024 }
    ensures { result ≡ cover_track c }
{
    Range {
        line: pick(grid::kinds_meet(c.kind, TRUNK), c.low.0, 0),
        start: c.left.0,
        past: c.right.0 + 1,
    }
}

// Lines of one kind: each element lies on one of them, on a range of its places.
pub trait Lines {
    ghost across: { Bool };

    // The range of element i on its line.
    fn range_of(case: &Case, i: usize) -> Range
        requires { i < elements case.now }
        ensures { result ≡ ranges across case.now i };
}

// The columns, whose places are rows.
pub struct Columns;

impl Lines for Columns {
    ghost across = { false };

    fn range_of(case: &Case, i: usize) -> Range {
        let (top, bot, tracks) = (case.top, case.bot, case.tracks);
        let width = top.len();
        if i < width {
            return pin_range(top[i], i + 1, tracks + 1);
        }
        let pins = width + width;
        if i < pins {
            let column = i - width;
            return pin_range(bot[column], column + 1, 0);
        }
        cover_in_column(case.cover_at(i - pins))
    }
}

// The tracks, whose places are columns.
pub struct Tracks;

impl Lines for Tracks {
    ghost across = { true };

    fn range_of(case: &Case, i: usize) -> Range {
        let pins = case.top.len() + case.top.len();
        if i < pins {
            return Range {
                line: 0,
                start: 0,
                past: 1,
            };
        }
        cover_on_track(case.cover_at(i - pins))
    }
}
