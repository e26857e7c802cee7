// A channel handed over as two rows of net numbers, and what is answered about it.
#![tactic(auto)]

mod lower_bounds;
mod parked;
mod rows;
mod spanning;
mod spans;

pub use lower_bounds::bounds;
pub use parked::{Nets, remove_parked};
pub use rows::{Rows, check};
pub use spanning::highest_number;
pub use spans::{Columns, find_columns};

// The bounds of a channel.
#[derive(Clone, Copy, Debug, PartialEq, Eq)]
pub struct LowerBounds {
    pub density: u32,
    // 0 where the channel is tangled
    // 0 and no None: docs/SCOPE.md has a tangled channel answer chain 0, and C gets it so
    pub chain: u32,
}
