// The grid of a board: its numbers, each with a type of its own so that a column is never taken where a track is due,
// and the pieces of copper that lie on it.
#![tactic(auto)]

ghost use Rattle.std.specs.Prelude.{◌≡◌};
ghost use Rattle.grid.specs.Touching.{kinds_meet};

pub const WIDEST: usize = 512;

pub const HIGHEST_NET: u32 = 511;

// How many nets there can be, and the places of a table by net number, in which place 0 is nobody's.
pub const NETS: usize = HIGHEST_NET as usize;

pub const NET_SLOTS: usize = NETS + 1;
// a table by column has a place for each column and one for 0, which is no column
pub const COLUMN_SLOTS: usize = WIDEST + 1;

// The kinds of copper, as the board file numbers them. Numbers, and no enum: a word's field may be none of them, and
// what docs/PROMISES.md names of `kinds_meet` is said of any two numbers.
pub const TRUNK: u32 = 0;

pub const BRANCH: u32 = 1;

pub const CONTACT: u32 = 2;

#[derive(Clone, Copy, Debug, PartialEq, Eq, PartialOrd, Ord)]
pub struct Column(pub u32);

#[derive(Clone, Copy, Debug, PartialEq, Eq, PartialOrd, Ord)]
pub struct Track(pub u32);

// Rows are 0 to tracks + 1: BOT pins stand in row 0, TOP pins in the last row, track k is row k.
#[derive(Clone, Copy, Debug, PartialEq, Eq, PartialOrd, Ord)]
pub struct Row(pub u32);

// No limit in the type: C hands over any number, and a tuple struct, named in docs/SCOPE.md, has no ghost.
#[derive(Clone, Copy, Debug, PartialEq, Eq, PartialOrd, Ord)]
pub struct Net(pub u32);

#[derive(Clone, Copy, Debug, PartialEq, Eq)]
pub enum Piece {
    // copper along a track, on the trunk side
    Trunk {
        track: Track,
        first: Column,
        last: Column,
    },
    // copper across, in one column, on the branch side
    Branch {
        column: Column,
        low: Row,
        high: Row,
    },
    // a joint of both sides at one point
    Contact {
        column: Column,
        track: Track,
    },
}

// Whether pieces of these kinds touch where they have a common point.
pub fn kinds_meet(a: u32, b: u32) -> bool
    ensures { result ≡ kinds_meet a b }
{
    (a == b) | ((a == CONTACT) | (b == CONTACT))
}
