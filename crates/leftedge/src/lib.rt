// Filling tracks by the constrained left-edge rule, and the ring that is shown where the fill is stuck.
#![tactic(auto)]

mod columns;
mod nets;
mod ring;
mod tracks;

use grid::{Column, Net, Track};
pub use nets::{count_looks, fill_tracks};
pub use ring::store_pairs;

// What the caller's table has of one net. A straight net's column stands twice, and its track is 0: it has none.
// 0 and no None: docs/SCOPE.md writes the record so.
#[derive(Clone, Copy, Debug, PartialEq, Eq)]
pub struct NetRecord {
    pub number: Net,
    pub first: Column,
    pub last: Column,
    pub track: Track,
}

// How a fill ends.
// An enum of its own: docs/SCOPE.md names the loop that is left by `break` with the outcome.
#[derive(Clone, Copy, Debug, PartialEq, Eq)]
pub enum Outcome {
    // every net with a span is placed, on so many tracks
    Placed(u32),
    // a track stays empty; the ring shown has so many pairs
    Stuck(u32),
}

// A fill: how it ends, and how many unplaced nets it looked at, once per track scan.
#[derive(Clone, Copy)]
pub struct Filled {
    pub outcome: Outcome,
    pub looks: usize,
}
