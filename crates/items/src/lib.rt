// Items with spans, and steps between them: their order, their density, and the chain of their steps. Nets of a channel
// are one kind of item. Items have numbers from 1 on; a table by item number has what is known of item n at place n.
#![tactic(auto)]

mod chain;
mod density;
mod links;
mod order;
mod steps;

pub use chain::longest_chain;
pub use density::greatest_density;
pub use order::sort_items;
pub use steps::{link_steps, lower_above};
