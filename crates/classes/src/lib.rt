// Classes of elements that are joined, for elements of any sort: a union-find in the numbers that are lent, chains of
// the elements on each line, and a sweep that joins the ranges on a line that overlap. Lent slices and clauses, no
// struct: C lends the scratch, and docs/PROMISES.md names these functions so.
#![tactic(auto)]

mod chains;
mod forest;
mod halves;
mod ranges;

pub use chains::{next, push};
pub use forest::{alone, flatten};
pub use halves::{high, low, number};
pub use ranges::{enter, sweep};

// The places of a line that an element covers: the line, 0 for none; the first place, and the first place past it.
// Line 0 and no Option: an element on no line is entered as any other, without a jump.
#[derive(Clone, Copy)]
pub struct Range {
    pub line: u32,
    pub start: u32,
    pub past: u32,
}
