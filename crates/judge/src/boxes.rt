// The box of grid points that a piece covers, read from the piece's word in the file.
ghost use Rattle.std.specs.Prelude.{◌≡◌, cond};
ghost use Rattle.judge.specs.Code.{box_of};

use boardfile::Fields;
use grid::{BRANCH, CONTACT, Column, Row, TRUNK};

// A kind, the first and the last column, the lowest and the highest row. The kind stays a number, as the board file has
// it and `grid::kinds_meet` takes it.
#[derive(Clone, Copy)]
pub struct Cover {
    pub kind: u32,
    pub left: Column,
    pub right: Column,
    pub low: Row,
    pub high: Row,
}

// One of two numbers: without a jump, so that pieces in any order cost the same.
pub fn pick(first: bool, a: u32, b: u32) -> u32
    ensures { result ≡ cond first a b }
{
    if first { a } else { b }
}

// The box of the piece of a word.
pub fn cover_of(v: u32) -> Cover
    ensures { result ≡ box_of v }
{
    let Fields {
        kind,
        line,
        from,
        to,
    } = boardfile::fields_of(v);
    let trunk = kind == TRUNK;
    let branch = kind == BRANCH;
    Cover {
        kind: pick(trunk, TRUNK, pick(branch, BRANCH, CONTACT)),
        left: Column(pick(trunk, from, line)),
        right: Column(pick(trunk, to, line)),
        low: Row(pick(trunk, line, from)),
        high: Row(pick(trunk, line, pick(branch, to, from))),
    }
}
