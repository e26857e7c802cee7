// The chain, by peeling: items with nothing below come first, and then each whose last step below leads to a peeled
// one.
ghost use Rattle.std.specs.Prelude.{◌≡◌, ℕ, ◌≤◌, ◌<◌, length, get_or, eqb};
ghost use mathlib.Core.List.{List, map, Memᴰ};
ghost use Rattle.lists.specs.Lists.{at, keep, overlay};
ghost use Rattle.items.specs.Chains.{Chained};
ghost use Rattle.items.specs.Depths.{Peeled, PeelLeft, StepsCounted, Peelable, CanPeel, PeelDone};

use crate::links::{Links, linked_from};

// The items with nothing below them, at the front of `queue`; answers how many there are.
fn queue_lowest(items: &[u32], under: &[u16], queue: &mut [u32]) -> usize
    requires { (length items.now ≤ length queue.old)
        × ((n : ℕ) → Memᴰ n items.now → n < length under.now) }
    ensures { (result ≡ length (keep (λ n. eqb (get_or under.now n 0) 0) items.now))
        × (queue.new
        ≡ overlay (keep (λ n. eqb (get_or under.now n 0) 0) items.now) queue.old) }
{
    let mut queued: usize = 0;
    // a chain of `filter` would write the queue in a loop all the same, and be no plainer
    for &n in items {
        if under[n as usize] == 0 {
            queue[queued] = n;
            queued += 1;
        }
    }
    queued
}

// Lowers the count of the upper item of each linked place; those with nothing left below go behind the
// first `queued` of the queue. Answers how many there are then.
// The queue is a lent slice and a count: `longest_chain`, named in docs/PROMISES.md, is lent it (`PeelLeft`).
fn peel_above(
    upper: &[u32],
    linked: Links<'_>,
    under: &mut [u16],
    queue: &mut [u32],
    mut queued: usize,
) -> usize
    requires { CanPeel upper.now linked.links.now linked.at under.old queue.old queued }
    ensures { (cs : List ℕ) → Chained linked.entry.links.now linked.entry.at cs
        → PeelDone (map (at upper.now) cs) under.old queue.old queued
        under.new queue.new result }
{
    for c in linked {
        let a = upper[c - 1] as usize;
        let left = under[a] - 1;
        under[a] = left;
        if left == 0 {
            queue[queued] = a as u32;
            queued += 1;
        }
    }
    queued
}

// The most items on a path down, 0 where an item is never peeled: it is on a ring, or above one. Each step is gone down
// once; the items peeled are left in the front of `queue`, and in `under` how many below each item are not.
// 0 and no None for a tangled list, and six slices: docs/PROMISES.md names it so (`Peelable`, `Peeled`).
pub fn longest_chain(
    items: &[u32],
    upper: &[u32],
    head: &[u16],
    next: &[u16],
    under: &mut [u16],
    queue: &mut [u32],
) -> u32
    requires { Peelable items.now upper.now head.now next.now under.old queue.old }
    ensures { (below : ℕ → List ℕ)
        → StepsCounted below items.now upper.now head.now next.now
        under.old → Peeled below items.now result
        × PeelLeft below items.now queue.old under.new queue.new }
{
    let mut queued = queue_lowest(items, under, queue);
    // the items peeled, those with which the present level ends, and the levels so far
    let mut done: usize = 0;
    let mut level: usize = 0;
    let mut levels: u32 = 0;
    // a `while`: the queue grows while it is gone along
    while done < queued {
        if done == level {
            level = queued;
            levels += 1;
        }
        let n = queue[done] as usize;
        queued = peel_above(upper, linked_from(next, head[n]), under, queue, queued);
        done += 1;
    }
    if queued == items.len() { levels } else { 0 }
}
